//! Pictures of data items: how they are written, what they describe, and editing by them.
#![tactic(auto)]

mod edited_form;
mod editing;
mod fault;
mod kind;
mod law;
mod number_form;
mod outline;
mod picture;
mod reading;
mod reading_back;
mod run;
mod spans;
mod units;

pub use editing::edit;
pub use fault::PictureFault;
pub use kind::{PictureKind, SignPlace};
pub use law::edited_text_reads_back;
pub use picture::Picture;
pub use reading::read_picture;
pub use reading_back::unedit;
pub use units::{is_negative, magnitude, signed};

#[cfg(test)]
mod editing_tests;
#[cfg(test)]
mod tests;
