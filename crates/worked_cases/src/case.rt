//! A case: what the command is run on, and what it should answer.

use std::alloc::{AllocError, Global};

/// How a text is compared with the wanted one.
#[derive(Clone, Copy, Debug, PartialEq, Eq)]
pub enum Way {
    /// It is not.
    Free,
    /// They are the same.
    Is,
    /// The wanted one stands in it.
    Has,
    /// It ends with the wanted one.
    Ends,
}

/// A text that is wanted.
#[derive(Drop)]
pub struct Wanted {
    pub way: Way,
    pub text: Vec<u8>,
}

impl Wanted {
    fn new(alloc: Global) -> Wanted {
        Wanted {
            way: Way::Free,
            text: Vec::new(alloc),
        }
    }

    /// Whether this text is as it should be.
    pub fn admits(&self, text: &[u8]) -> bool {
        let wanted = self.text.as_slice();
        match self.way {
            Way::Free => true,
            Way::Is => text == wanted,
            Way::Has => text.windows(wanted.len().max(1)).any(|part| part == wanted),
            Way::Ends => text.ends_with(wanted),
        }
    }
}

/// Where the pieces of text go.
#[derive(Clone, Copy, Debug, PartialEq, Eq)]
pub enum Place {
    File,
    Out,
    Log,
}

#[derive(Drop)]
pub struct Case {
    pub words: Vec<String>,
    pub files: Vec<(Vec<u8>, Vec<u8>)>,
    /// At most how many bytes the host gives at a time.
    pub most: usize,
    /// The calls of the host that fail, counted from 0.
    pub fail: Vec<u32>,
    pub out_room: usize,
    pub log_room: usize,
    pub status: Option<u8>,
    pub out: Wanted,
    pub log: Wanted,
    pub place: Place,
}

const ROOM: usize = 16_777_216;

impl Case {
    /// A case with the words `p m` and without files, of which nothing is wanted.
    pub fn new(alloc: Global) -> Result<Case, AllocError> {
        let mut words = Vec::new(alloc);
        words.push(String::from_str(alloc, "p")?)?;
        words.push(String::from_str(alloc, "m")?)?;
        Ok(Case {
            words,
            files: Vec::new(alloc),
            most: 4096,
            fail: Vec::new(alloc),
            out_room: ROOM,
            log_room: ROOM,
            status: None,
            out: Wanted::new(alloc),
            log: Wanted::new(alloc),
            place: Place::File,
        })
    }

    /// Begins another file.
    pub fn begin_file(&mut self, alloc: Global, name: &str) -> Result<(), AllocError> {
        let name = Vec::from_slice(alloc, name.as_bytes())?;
        self.files.push((name, Vec::new(alloc)))?;
        self.place = Place::File;
        Ok(())
    }

    /// Puts a piece behind the text that was begun last.
    pub fn put(&mut self, piece: &[u8]) -> Result<(), AllocError> {
        match self.place {
            Place::Out => self.out.text.extend_from_slice(piece),
            Place::Log => self.log.text.extend_from_slice(piece),
            Place::File => match self.files.last_mut() {
                Some(file) => file.1.extend_from_slice(piece),
                None => Ok(()),
            },
        }
    }

    /// Gives the case an empty file of each of the names `p` and `m`, behind those that it has.
    pub fn complete(&mut self, alloc: Global) -> Result<(), AllocError> {
        self.begin_file(alloc, "p")?;
        self.begin_file(alloc, "m")
    }
}
