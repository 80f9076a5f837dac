// A sink that keeps the text which it takes.
ghost use Rattle.std.specs.Prelude.{◌≡◌, ◌<◌, ◌≤◌, [], length, take, IfOk, OnErr, IsOk};
ghost use Rattle.rw_outside.specs.Outside.{Rose, appended, Grows};
ghost use Rattle.mlir_print.specs.TextSink.{text_state};

use mlir_tree::text::Text;
use rw_outside::{Failed, Sink};
use shared_text::SharedText;
use sqlite_items::Items;
use std::alloc::{AllocError, Global};

// A sink in memory, which takes memory for each piece. It fails only where there is none.
#[derive(Drop)]
pub struct TextSink {
    bytes: Vec<u8>,
    faults: u64,
}

impl TextSink {
    // A sink that took nothing yet.
    pub fn new(alloc: Global) -> TextSink
        ensures bytes { result.bytes.items ≡ [] }
        ensures faults { result.faults ≡ 0 }
    {
        TextSink {
            bytes: Vec::new(alloc),
            faults: 0,
        }
    }

    // The text taken, where all was put.
    pub fn finish(self, alloc: Global, printed: Result<(), Failed>) -> Result<Text, AllocError>
        ensures text { IfOk result (λ text. IsOk printed × (text ≡ self.bytes.items)) }
    {
        match printed {
            Ok(()) => SharedText::new(alloc, Items::from_vec(self.bytes)),
            Err(Failed) => Err(AllocError),
        }
    }
}

impl Sink for TextSink {
    ghost state = { text_state };

    fn put(&mut self, piece: &[u8]) -> Result<usize, Failed>
        ensures within { IfOk result (λ n. n ≤ length piece.now) }
        ensures taken { IfOk result (λ n. (text_state self.new).bytes ≡ appended (text_state self.old).bytes (take n piece.now)) }
        ensures kept { OnErr result ((text_state self.new).bytes ≡ (text_state self.old).bytes) }
        ensures failed { OnErr result (Rose (text_state self.old).faults (text_state self.new).faults) }
        ensures refused { IfOk result (λ n. n ≡ 0 → 0 < length piece.now → Rose (text_state self.old).faults (text_state self.new).faults) }
        ensures never_falls { (text_state self.old).faults ≤ (text_state self.new).faults }
        ensures arrives { Grows (text_state self.old).arrived (text_state self.new).arrived }
        ensures same_way { (text_state self.new).way ≡ (text_state self.old).way }
    {
        match self.bytes.extend_from_slice(piece) {
            Ok(()) => Ok(piece.len()),
            Err(AllocError) => {
                self.faults = self.faults.saturating_add(1);
                Err(Failed)
            }
        }
    }
}
