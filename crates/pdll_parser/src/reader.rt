//! A pattern file that is read token by token.

ghost use Rattle.std.specs.Prelude.{◌≡◌, ◌<◌, ◌≤◌, OnOk, ℕ, List, length, IfOk, Ok, Err};
ghost use Rattle.pdll_parser.specs.Place as place;
ghost use Rattle.pdll_parser.specs.Input.{Reads, expect, name, word};
ghost use Rattle.pdll_parser.specs.Expressions.{text_of};
ghost use Rattle.pdll_parser.specs.Reader.{IsWithin, refusal_at, too_many_at, opening, ReadsText};

use crate::terminal::{Terminal, terminal_of};
use mlir_tree::refusal::Refusal;
use pdll_lexer::{LexFault, Token, next_token};
use pdll_syntax::fault::{PatFault, PatKind};
use std::marker::Model;

/// A text, how far it was read, and the token there.
#[derive(Drop)]
pub struct Reader<'a> {
    bytes: &'a [u8],
    at: usize,
    token: Result<Token, LexFault>,
    terminal: Terminal,
}

impl<'a> Model for Reader<'a> {
    ghost use Rattle.pdll_parser.specs.Place.{Place, at_place};

    ghost Value = { Place };

    ghost use Rattle.pdll_parser.specs.Reader.{IsCut};

    ghost view = { λ r. at_place r.bytes.now r.at };

    ghost invariant = { λ r. IsCut r.bytes.now r.at r.token r.terminal };
}

/// What a token is for the grammar, where there is one.
fn terminal_at(bytes: &[u8], token: Result<Token, LexFault>) -> Terminal
    requires { IsWithin bytes.now token }
    ensures { result ≡ place.lexed_terminal bytes.now token }
{
    match token {
        Ok(token) => terminal_of(token.kind, &bytes[token.start..token.end]),
        Err(_) => Terminal::Bad,
    }
}

impl<'a> Reader<'a> {
    #[tactic(auto, unfolding(crate::specs::Place::terminal))]
    fn at(bytes: &'a [u8], at: usize) -> Reader<'a>
        requires { at ≤ length bytes.now }
        ensures { result ≡ place.at_place bytes.now at }
    {
        let token = next_token(bytes, at);
        let terminal = terminal_at(bytes, token);
        Reader {
            bytes,
            at,
            token,
            terminal,
        }
    }

    /// A text, of which nothing is read yet.
    pub fn new(bytes: &'a [u8]) -> Reader<'a>
        ensures { result ≡ place.at_place bytes.now 0 }
    {
        Reader::at(bytes, 0)
    }

    /// What stands there.
    pub fn peek(&self) -> Terminal
        ensures { result ≡ place.terminal self.now }
    {
        self.terminal
    }

    /// Where the token there begins.
    #[tactic(auto, unfolding(crate::specs::Place::start))]
    pub fn start(&self) -> usize
        ensures { result ≡ place.start self.now }
    {
        match self.token {
            Ok(token) => token.start,
            Err(LexFault::BadByte(at)) => at,
            Err(LexFault::BadString(at)) => at,
        }
    }

    /// How many bytes are left.
    pub fn left(&self) -> usize
        ensures { result ≡ place.left self.now }
    {
        self.bytes.len() - self.at
    }

    /// Takes the token there. Where none stands, nothing is taken.
    #[tactic(auto, unfolding(crate::specs::Place::spelling, crate::specs::Place::next))]
    pub fn take(&mut self) -> &'a [u8]
        ensures text { result.now ≡ place.spelling self.old }
        ensures place { self.new ≡ place.next self.old }
    {
        let bytes = self.bytes;
        match self.token {
            Ok(token) => {
                *self = Reader::at(bytes, token.end);
                &bytes[token.start..token.end]
            }
            Err(_) => &bytes[..0],
        }
    }

    /// The fault where no rule goes on with the token there.
    pub fn refuse(&self) -> Refusal<PatFault>
        ensures { result ≡ refusal_at self.now }
    {
        let kind = match self.token {
            Err(LexFault::BadByte(_)) => PatKind::BadByte,
            Err(LexFault::BadString(_)) => PatKind::BadString,
            Ok(_) => match self.terminal {
                Terminal::CppBody => PatKind::CppBody,
                Terminal::Include => PatKind::Include,
                _ => PatKind::Syntax,
            },
        };
        let at = self.start();
        Refusal::Fault(PatFault { kind, at })
    }

    /// The fault where what stands there is one too many.
    pub fn too_many(&self) -> Refusal<PatFault>
        ensures { result ≡ too_many_at self.now }
    {
        let at = self.start();
        Refusal::Fault(PatFault {
            kind: PatKind::TooMany,
            at,
        })
    }

    /// Whether this stands there.
    #[tactic(auto, unfolding(crate::specs::Place::sees, crate::specs::Place::same))]
    pub fn sees(&self, terminal: Terminal) -> bool
        ensures { result ≡ place.sees terminal self.now }
    {
        self.terminal == terminal
    }

    /// Takes this, where it stands there.
    #[tactic(auto, unfolding(crate::specs::Place::after))]
    pub fn eat(&mut self, terminal: Terminal) -> bool
        ensures value { result ≡ place.sees terminal self.old }
        ensures place { self.new ≡ place.after terminal self.old }
    {
        if !self.sees(terminal) {
            return false;
        }
        self.take();
        true
    }

    /// Takes this, which must stand there.
    #[tactic(auto, unfolding(crate::specs::Input::expect, crate::specs::Input::refuse))]
    pub fn expect(&mut self, terminal: Terminal) -> Result<(), Refusal<PatFault>>
        ensures { Reads (expect terminal self.old) result self.new }
    {
        if !self.sees(terminal) {
            return Err(self.refuse());
        }
        self.take();
        Ok(())
    }

    /// Takes this, which must stand there, as its text.
    #[tactic(auto, unfolding(crate::specs::Input::expect_some, crate::specs::Input::refuse, crate::specs::Place::sees))]
    pub fn text_of(&mut self, terminal: Terminal) -> Result<&'a [u8], Refusal<PatFault>>
        ensures { ReadsText (text_of terminal self.old) result self.new }
    {
        if !self.sees(terminal) {
            return Err(self.refuse());
        }
        Ok(self.take())
    }

    /// Takes a word that is a name.
    #[tactic(auto, unfolding(crate::specs::Input::expect_some, crate::specs::Input::refuse))]
    pub fn name(&mut self) -> Result<&'a [u8], Refusal<PatFault>>
        ensures { ReadsText (name self.old) result self.new }
    {
        if !self.peek().is_name() {
            return Err(self.refuse());
        }
        Ok(self.take())
    }

    /// Takes a word.
    #[tactic(auto, unfolding(crate::specs::Input::expect_some, crate::specs::Input::refuse))]
    pub fn word(&mut self) -> Result<&'a [u8], Refusal<PatFault>>
        ensures { ReadsText (word self.old) result self.new }
    {
        if !self.peek().is_word() {
            return Err(self.refuse());
        }
        Ok(self.take())
    }

    /// Takes an opening bracket, where so many more may be open.
    #[tactic(auto, unfolding(crate::specs::Reader::opening, crate::specs::Input::refuse))]
    pub fn opening(&mut self, mark: Terminal, depth: usize) -> Result<(), Refusal<PatFault>>
        ensures value { Reads (opening mark depth self.old) result self.new }
        ensures deep { OnOk result (0 < depth) }
    {
        if !self.sees(mark) {
            return Err(self.refuse());
        }
        if depth == 0 {
            return Err(self.too_many());
        }
        self.take();
        Ok(())
    }
}
