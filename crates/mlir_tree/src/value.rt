//! Values.

ghost use Rattle.std.specs.Prelude.{◌≡◌, ◌↔◌, ◌≤◌, [], length, slice_get, IsTrue, IfOk, OnSome, ◌<◌};
ghost use Rattle.std.specs.Option.{option_copied};

use sqlite_items::Items;
use std::alloc::{AllocError, Global};
use std::marker::Model;
use std::rc::Rc;

/// A value (MLIR Language Reference, "High-Level Structure"): a result by row and place, or an argument by row, region and place.
#[derive(Clone, Copy, Debug, PartialEq, Eq, PartialOrd, Ord, Hash)]
pub enum Val {
    Res(u32, u16),
    Arg(u32, u16, u16),
}

const ROOM: usize = 2;

/// A list of values that contracts see as the list of its items. It never changes. One of up to two values takes no memory of
/// its own, and a copy of a longer one shares its values.
pub struct ValList {
    form: ValForm,
}

impl Drop for ValList {
    fn drop(self) {
        let ValList { form: _form } = self;
    }
}

#[derive(Drop)]
enum ValForm {
    Few(u8, [Val; ROOM]),
    Many(Rc<Items<Val>>),
}

impl Model for ValList {
    ghost use Rattle.std.specs.Prelude.{List};
    ghost use Rattle.mlir_tree.specs.declared.value.Val.{Val as Meaning};

    ghost Value = { List Meaning };

    ghost use Rattle.mlir_tree.specs.ValForms.{vals_of, Fits};

    ghost view = { λ t. vals_of t.form };

    ghost invariant = { λ t. Fits t.form };
}

fn few(values: &[Val]) -> ValList
    requires { length values.now ≤ 2 }
    ensures { result ≡ values.now }
{
    let mut room = [Val::Res(0, 0); ROOM];
    room[..values.len()].copy_from_slice(values);
    ValList {
        form: ValForm::Few(values.len() as u8, room),
    }
}

impl ValList {
    /// The list of no value.
    pub fn empty() -> ValList
        ensures { result ≡ [] }
    {
        few(&[])
    }

    /// The list of these values, which may be kept as they are.
    pub fn new(alloc: Global, values: Items<Val>) -> Result<ValList, AllocError>
        ensures { IfOk result (λ t. t ≡ values) }
    {
        if values.len() <= ROOM {
            return Ok(few(values.as_slice()));
        }
        Ok(ValList {
            form: ValForm::Many(Rc::new(alloc, values)?),
        })
    }

    /// The list of these values.
    pub fn from_slice(alloc: Global, values: &[Val]) -> Result<ValList, AllocError>
        ensures { IfOk result (λ t. t ≡ values.now) }
    {
        if values.len() <= ROOM {
            return Ok(few(values));
        }
        Ok(ValList {
            form: ValForm::Many(Rc::new(alloc, Items::from_slice(alloc, values)?)?),
        })
    }

    pub fn as_slice(&self) -> &[Val]
        ensures { result.now ≡ self.now }
    {
        match &self.form {
            ValForm::Few(len, room) => &room[..*len as usize],
            ValForm::Many(values) => values.as_ref().as_slice(),
        }
    }

    pub fn len(&self) -> usize
        ensures { result ≡ length self.now }
    {
        self.as_slice().len()
    }

    pub fn get(&self, at: usize) -> Option<&Val>
        ensures value { option_copied result ≡ slice_get self.now at }
        ensures within { OnSome result (at < length self.now) }
    {
        self.as_slice().get(at)
    }

    pub fn is_empty(&self) -> bool
        ensures { IsTrue result ↔ (self.now ≡ []) }
    {
        self.as_slice().is_empty()
    }

    /// An equal list, which shares its values if they are many.
    pub fn copy(&self) -> Result<ValList, AllocError>
        ensures { IfOk result (λ t. t ≡ self.now) }
    {
        match &self.form {
            ValForm::Few(len, room) => Ok(ValList {
                form: ValForm::Few(*len, *room),
            }),
            ValForm::Many(values) => Ok(ValList {
                form: ValForm::Many(values.clone()?),
            }),
        }
    }
}

/// Whether the values are equal one by one.
pub fn equal_vals(a: &[Val], b: &[Val]) -> bool
    ensures { IsTrue result ↔ (a.now ≡ b.now) }
{
    if a.len() != b.len() {
        return false;
    }
    for i in 0..a.len() {
        if a[i] != b[i] {
            return false;
        }
    }
    true
}
