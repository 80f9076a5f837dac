//! Calls of `order_labels`.

use call_answers::Answers;
use order_labels::Labels;
use std::alloc::AllocError;

pub fn tell(answers: &mut Answers) -> Result<(), AllocError> {
    let mut labels = Labels::new(answers.alloc);
    answers.tell_value("Labels::len(), of none", &labels.len())?;
    answers.tell_value("Labels::first(), of none", &labels.first())?;
    labels.reserve(1)?;
    labels.push_last(4_294_967_295);
    answers.tell_value("Labels::len()", &labels.len())?;
    answers.tell_value("Labels::first()", &labels.first())?;
    answers.tell_value("Labels::last()", &labels.last())
}
