//! A text that is read token by token.

ghost use Rattle.std.specs.Prelude.{◌≡◌, ◌≤◌, ◌<◌, ◌++◌, [], length, slice_index, IfOk, OnOk, Err};
ghost use Rattle.mlir_attributes.specs.Types as types;
ghost use Rattle.mlir_attributes.specs.Place as place;
ghost use Rattle.mlir_attributes.specs.Steps as steps;
ghost use Rattle.mlir_attributes.specs.Complete as complete;
ghost use Rattle.mlir_attributes.specs.Input.{after, expect, Reads, Fails};
ghost use Rattle.mlir_tree.specs.declared.refusal.Refusal.TheVariants as refusals;

use crate::aliases::{Alias, Aliases};
use crate::complete;
use crate::fault::{ModFault, ModKind};
use crate::kept_text::names;
use crate::locations::balanced;
use mlir_lexer::{BodyFault, LexFault, Token, TokenKind, body_end, next_token};
use mlir_tree::refusal::Refusal;
use mlir_tree::text::Text;
use mlir_tree::ty::{Ty, TyList};
use recent_values::Recent;
use shared_text::SharedText;
use sqlite_items::Items;
use std::alloc::{AllocError, Global};
use std::marker::Model;

/// Why a text is refused.
pub type Refused = Refusal<ModFault>;

/// A text, how far it was read, and what was counted on the way.
#[derive(Drop)]
pub struct Reader<'a> {
    bytes: &'a [u8],
    at: usize,
    /// The next token, or why there is none.
    token: Result<Token, LexFault>,
    /// The bytes of text that were put in for aliases.
    put: usize,
    operations: usize,
    /// The operands and results.
    slots: usize,
    /// What was made lately. No contract sees it.
    recent: Recent,
}

impl<'a> Model for Reader<'a> {
    ghost use Rattle.std.specs.Prelude.{◌≡◌, ◌≤◌, length, IfOk};
    ghost use Rattle.mlir_lexer.specs.Scan.{token_at};
    ghost use Rattle.mlir_attributes.specs.Place.{Place, place_code};

    ghost Value = { Place };

    ghost coded = { place_code };

    ghost view = { λ r. record { bytes = r.bytes.now; at = r.at; put = r.put; operations = r.operations; slots = r.slots } };

    ghost invariant = { λ r. (r.at ≤ length r.bytes.now) × (r.token ≡ token_at r.bytes.now r.at) × IfOk r.token (λ t. (t.start ≤ t.end) × (t.end ≤ length r.bytes.now)) × (r.put ≤ 67108864) × (r.operations ≤ 1000000) × (r.slots ≤ 16000000) };
}

impl<'a> Reader<'a> {
    pub fn new(alloc: Global, bytes: &'a [u8]) -> Reader<'a>
        ensures { result ≡ place.start_of bytes.now }
    {
        Reader {
            bytes,
            at: 0,
            token: next_token(bytes, 0),
            put: 0,
            operations: 0,
            slots: 0,
            recent: Recent::new(alloc),
        }
    }

    /// A second reader at the same place.
    pub fn again(&self, alloc: Global) -> Reader<'a>
        ensures { result ≡ self.now }
    {
        Reader {
            bytes: self.bytes,
            at: self.at,
            token: self.token,
            put: self.put,
            operations: self.operations,
            slots: self.slots,
            recent: Recent::new(alloc),
        }
    }

    /// The text of these bytes. It shares memory with an equal text that was read lately.
    pub fn text(&mut self, alloc: Global, bytes: &[u8]) -> Result<Text, AllocError>
        ensures value { IfOk result (λ t. t ≡ bytes.now) }
        ensures place { self.new ≡ self.old }
    {
        self.recent.text(alloc, bytes)
    }

    /// The list of these types. It shares memory with an equal list that was read lately.
    pub fn types(&mut self, alloc: Global, types: Items<Ty>) -> Result<TyList, AllocError>
        ensures value { IfOk result (λ ts. ts ≡ types) }
        ensures place { self.new ≡ self.old }
    {
        self.recent.types(alloc, types)
    }

    /// Goes on at another place.
    fn go_to(&mut self, at: usize)
        requires { at ≤ length self.old.bytes }
        ensures { self.new ≡ place.moved self.old at }
    {
        self.at = at;
        self.token = next_token(self.bytes, at);
    }

    /// How many bytes are left.
    pub fn left(&self) -> usize
        ensures { result ≡ place.left self.now }
    {
        self.bytes.len() - self.at
    }

    #[tactic(auto, unfolding(crate::specs::Place::kind))]
    pub fn kind(&self) -> Option<TokenKind>
        ensures { result ≡ place.kind self.now }
    {
        match self.token {
            Ok(token) => Some(token.kind),
            Err(_) => None,
        }
    }

    #[tactic(auto, unfolding(crate::specs::Place::sees))]
    pub fn sees(&self, kind: TokenKind) -> bool
        ensures { result ≡ place.sees kind self.now }
    {
        match self.token {
            Ok(token) => token.kind == kind,
            Err(_) => false,
        }
    }

    /// Where the next token begins.
    #[tactic(auto, unfolding(crate::specs::Place::start))]
    pub fn start(&self) -> usize
        ensures { result ≡ place.start self.now }
    {
        match self.token {
            Ok(token) => token.start,
            Err(LexFault::BadByte(at)) => at,
            Err(LexFault::BadString(at)) => at,
        }
    }

    /// The bytes of the next token.
    #[tactic(auto, unfolding(crate::specs::Place::spelling))]
    pub fn spelling(&self) -> &'a [u8]
        ensures { result.now ≡ place.spelling self.now }
    {
        match self.token {
            Ok(token) => &self.bytes[token.start..token.end],
            Err(_) => b"",
        }
    }

    /// The bytes of the next token, which is taken.
    #[tactic(auto, unfolding(crate::specs::Place::spelling, crate::specs::Place::next))]
    pub fn take(&mut self) -> &'a [u8]
        ensures value { result.now ≡ place.spelling self.old }
        ensures rest { self.new ≡ place.next self.old }
    {
        match self.token {
            Ok(token) => {
                let text = &self.bytes[token.start..token.end];
                self.go_to(token.end);
                text
            }
            Err(_) => b"",
        }
    }

    #[tactic(auto, unfolding(crate::specs::Place::refusal))]
    pub fn refuse(&self) -> Refused
        ensures { result ≡ refusals.Fault (place.refusal self.now) }
    {
        Refusal::Fault(match self.token {
            Ok(token) => fault_at(ModKind::Syntax, token.start),
            Err(LexFault::BadByte(at)) => fault_at(ModKind::BadByte, at),
            Err(LexFault::BadString(at)) => fault_at(ModKind::BadString, at),
        })
    }

    /// A fault at the next token.
    pub fn fail(&self, kind: ModKind) -> Refused
        ensures { result ≡ refusals.Fault (place.fault kind (place.start self.now)) }
    {
        fail_at(kind, self.start())
    }

    #[tactic(auto, unfolding(crate::specs::Input::after))]
    pub fn eat(&mut self, kind: TokenKind) -> bool
        ensures value { result ≡ place.sees kind self.old }
        ensures rest { self.new ≡ after kind self.old }
    {
        if !self.sees(kind) {
            return false;
        }
        self.take();
        true
    }

    #[tactic(auto, unfolding(crate::specs::Input::expect))]
    pub fn expect(&mut self, kind: TokenKind) -> Result<(), Refused>
        ensures { Reads (expect kind self.old) result self.new }
    {
        if !self.sees(kind) {
            return Err(self.refuse());
        }
        self.take();
        Ok(())
    }

    /// Takes an opening bracket, where so many may be opened.
    #[tactic(auto, unfolding(crate::specs::Steps::opening))]
    pub fn opening(&mut self, mark: TokenKind, room: u32) -> Result<(), Refused>
        ensures value { Reads (steps.opening mark room self.old) result self.new }
        ensures some { OnOk result (0 < room) }
    {
        if !self.sees(mark) {
            return Err(self.refuse());
        }
        if room == 0 {
            return Err(self.fail(ModKind::TooMany));
        }
        self.take();
        Ok(())
    }

    /// Counts one more operand or result, if there is room for it behind so many others of its operation.
    #[tactic(auto, unfolding(crate::specs::Steps::after_slot))]
    pub fn take_slot(&mut self, before: usize) -> bool
        ensures value { result ≡ steps.has_slot before self.old }
        ensures rest { self.new ≡ steps.after_slot before self.old }
    {
        if before < MAX_PARTS && self.slots < MAX_SLOTS {
            self.slots += 1;
            true
        } else {
            false
        }
    }

    /// Counts one more operation, if there is room for it.
    #[tactic(auto, unfolding(crate::specs::Steps::after_operation))]
    pub fn take_operation(&mut self) -> bool
        ensures value { result ≡ steps.has_operation self.old }
        ensures rest { self.new ≡ steps.after_operation self.old }
    {
        if self.operations < MAX_OPERATIONS {
            self.operations += 1;
            true
        } else {
            false
        }
    }

    /// The text of a location behind its first bracket, and the closing one.
    #[tactic(auto, unfolding(crate::specs::Steps::location_text))]
    pub fn location_text(&mut self, room: u32) -> Result<(), Refused>
        ensures { Reads (steps.location_text room self.old) result self.new }
    {
        match balanced(self.bytes, room, self.at) {
            Ok(end) => {
                self.go_to(end);
                Ok(())
            }
            Err(fault) => Err(Refusal::Fault(body_fault(fault))),
        }
    }

    /// Puts in the text of an alias, where so many brackets may be opened.
    pub fn put_in(&mut self, alias: &Alias, room: u32) -> bool
        ensures value { result ≡ types.has_room room alias.now self.old }
        ensures rest { self.new ≡ types.after_use room alias.now self.old }
    {
        if alias.brackets > room as usize || alias.text.len() > MAX_PUT - self.put {
            return false;
        }
        self.put += alias.text.len();
        true
    }

    /// This text and the kept body behind it, where so many brackets may be opened.
    #[tactic(auto, unfolding(crate::specs::Types::kept, crate::specs::Types::body))]
    pub fn kept(
        &mut self,
        alloc: Global,
        aliases: &Aliases,
        front: &[u8],
        room: u32,
    ) -> Result<Text, Refused>
        ensures { Reads (types.kept aliases.now front.now room self.old) result self.new }
    {
        let Ok(token) = self.token else {
            return Err(self.refuse());
        };
        if !opens_body(self.bytes, token.start) {
            return Err(self.refuse());
        }
        if room == 0 {
            return Err(fail_at(ModKind::TooMany, token.start));
        }
        match body_end(self.bytes, token.start, MAX_OPEN.saturating_sub(room)) {
            Ok(end) => {
                let body = &self.bytes[token.start..end];
                match names(alloc, aliases, body, room, self.put)? {
                    Ok((text, put)) => {
                        self.go_to(end);
                        self.put = put;
                        Ok(joined(alloc, front, text.as_slice())?)
                    }
                    Err(i) => Err(fail_at(ModKind::TooMany, token.start + i)),
                }
            }
            Err(fault) => Err(self.broken_body(alloc, aliases, room, token.start, fault)),
        }
    }

    /// Takes the kept body that begins with the next token, however many brackets are open in it.
    #[tactic(auto, unfolding(crate::specs::Complete::past_body))]
    pub fn pass_body(&mut self, alloc: Global) -> Result<(), Refused>
        ensures { Reads (complete.past_body self.old) result self.new }
    {
        let Ok(token) = self.token else {
            return Err(self.refuse());
        };
        if !opens_body(self.bytes, token.start) {
            return Err(self.refuse());
        }
        match complete::body_end(alloc, self.bytes, token.start)? {
            Some(end) => {
                self.go_to(end);
                Ok(())
            }
            None => Err(self.refuse()),
        }
    }

    /// The fault of a kept body that begins at `start` and breaks off: that of an alias before that passes a limit, or else this one.
    fn broken_body(
        &self,
        alloc: Global,
        aliases: &Aliases,
        room: u32,
        start: usize,
        fault: BodyFault,
    ) -> Refused
        requires { start ≤ length self.now.bytes }
        ensures { Fails result (types.body_by aliases.now room self.now start (Err fault)) }
    {
        let fault = body_fault(fault);
        let end = if start <= fault.at && fault.at < self.bytes.len() {
            fault.at + 1
        } else {
            self.bytes.len()
        };
        match names(alloc, aliases, &self.bytes[start..end], room, self.put) {
            Ok(Ok(_)) => Refusal::Fault(fault),
            Ok(Err(i)) => fail_at(ModKind::TooMany, start + i),
            Err(AllocError) => Refusal::NoMemory,
        }
    }
}

/// How many operands, results and regions an operation may have, and how many arguments a region.
pub const MAX_PARTS: usize = 65_535;

/// How many operations a module may have.
const MAX_OPERATIONS: usize = 1_000_000;

/// How many operands and results all operations may have together.
const MAX_SLOTS: usize = 16_000_000;

/// How many bytes of text may be put in for aliases.
pub const MAX_PUT: usize = 67_108_864;

/// How many brackets may be open at once.
pub const MAX_OPEN: u32 = 256;

fn byte_at(bytes: &[u8], at: usize) -> u8
    ensures { result ≡ slice_index bytes.now at }
{
    if at < bytes.len() { bytes[at] } else { 0 }
}

fn opens_body(bytes: &[u8], at: usize) -> bool
    requires { at ≤ length bytes.now }
    ensures { result ≡ types.opens_body bytes.now at }
{
    byte_at(bytes, at) == b'<' && !(byte_at(bytes, at + 1) == b'=')
}

fn body_fault(fault: BodyFault) -> ModFault
    ensures { result ≡ types.body_fault fault }
{
    match fault {
        BodyFault::Unclosed(at) => fault_at(ModKind::Syntax, at),
        BodyFault::TooDeep(at) => fault_at(ModKind::TooMany, at),
        BodyFault::BadString(at) => fault_at(ModKind::BadString, at),
    }
}

/// An empty list with room for one item.
pub fn room_for_one<T>(alloc: Global) -> Result<Items<T>, AllocError>
    ensures { IfOk result (λ items. items ≡ []) }
{
    Ok(Items::from_vec(Vec::with_capacity(alloc, 1)?))
}

/// The bytes of both texts.
pub fn joined(alloc: Global, front: &[u8], back: &[u8]) -> Result<Text, AllocError>
    ensures { IfOk result (λ text. text ≡ front.now ++ back.now) }
{
    let mut text = Items::from_slice(alloc, front)?;
    for b in back {
        text.push(*b)?;
    }
    SharedText::new(alloc, text)
}

fn fault_at(kind: ModKind, at: usize) -> ModFault
    ensures { result ≡ place.fault kind at }
{
    ModFault { kind, at }
}

/// A fault at a place.
pub fn fail_at(kind: ModKind, at: usize) -> Refused
    ensures { result ≡ refusals.Fault (place.fault kind at) }
{
    Refusal::Fault(fault_at(kind, at))
}
