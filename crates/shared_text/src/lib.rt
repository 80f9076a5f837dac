//! Texts that never change. A short one stands in its place, and copies of a long one share it.
#![tactic(auto)]

ghost use Rattle.std.specs.Prelude.{◌≡◌, ◌↔◌, ◌≤◌, [], length, take, IfOk, IsTrue};

use sqlite_items::Items;
use std::alloc::{AllocError, Global};
use std::marker::Model;
use std::rc::Rc;

const ROOM: usize = 22;

/// A text that contracts see as the list of its bytes. It never changes. One of up to 22 bytes takes no memory of its own,
/// and a copy of a longer one shares its bytes.
pub struct SharedText {
    form: Form,
}

impl Drop for SharedText {
    fn drop(self) {
        let SharedText { form: _form } = self;
    }
}

#[derive(Drop)]
enum Form {
    Short(u8, [u8; ROOM]),
    Long(Rc<Items<u8>>),
}

impl Model for SharedText {
    ghost use Rattle.std.specs.Prelude.{List, ℕ};

    ghost Value = { List ℕ };

    ghost use Rattle.shared_text.specs.Form.{bytes_of, Fits};

    ghost view = { λ t. bytes_of t.form };

    ghost invariant = { λ t. Fits t.form };
}

/// The bytes at the front of the room.
fn short(bytes: &[u8]) -> SharedText
    requires { length bytes.now ≤ 22 }
    ensures { result ≡ bytes.now }
{
    let mut room = [0; ROOM];
    room[..bytes.len()].copy_from_slice(bytes);
    SharedText {
        form: Form::Short(bytes.len() as u8, room),
    }
}

impl SharedText {
    /// The text of no byte.
    pub fn empty() -> SharedText
        ensures { result ≡ [] }
    {
        SharedText {
            form: Form::Short(0, [0; ROOM]),
        }
    }

    /// The text of these bytes, which may be kept as they are.
    pub fn new(alloc: Global, bytes: Items<u8>) -> Result<SharedText, AllocError>
        ensures { IfOk result (λ t. t ≡ bytes) }
    {
        if bytes.len() <= ROOM {
            return Ok(short(bytes.as_slice()));
        }
        Ok(SharedText {
            form: Form::Long(Rc::new(alloc, bytes)?),
        })
    }

    /// The text of these bytes.
    pub fn from_slice(alloc: Global, bytes: &[u8]) -> Result<SharedText, AllocError>
        ensures { IfOk result (λ t. t ≡ bytes.now) }
    {
        if bytes.len() <= ROOM {
            return Ok(short(bytes));
        }
        Ok(SharedText {
            form: Form::Long(Rc::new(alloc, Items::from_slice(alloc, bytes)?)?),
        })
    }

    pub fn as_slice(&self) -> &[u8]
        ensures { result.now ≡ self.now }
    {
        match &self.form {
            Form::Short(len, room) => &room[..*len as usize],
            Form::Long(bytes) => bytes.as_ref().as_slice(),
        }
    }

    pub fn len(&self) -> usize
        ensures { result ≡ length self.now }
    {
        self.as_slice().len()
    }

    pub fn is_empty(&self) -> bool
        ensures { IsTrue result ↔ (self.now ≡ []) }
    {
        self.as_slice().is_empty()
    }

    /// An equal text, which shares its bytes if they are many.
    pub fn copy(&self) -> Result<SharedText, AllocError>
        ensures { IfOk result (λ t. t ≡ self.now) }
    {
        match &self.form {
            Form::Short(len, room) => Ok(SharedText {
                form: Form::Short(*len, *room),
            }),
            Form::Long(bytes) => Ok(SharedText {
                form: Form::Long(bytes.clone()?),
            }),
        }
    }
}
