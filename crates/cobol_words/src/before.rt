/// Whether the next run of nonspace bytes is a picture.
#[derive(Clone, Copy, Debug, PartialEq, Eq)]
pub enum Wish {
    /// It isn't.
    NoPicture,
    /// It is, since PIC or PICTURE stands before it, and IS behind that.
    Picture,
    /// It is, unless it is IS: PIC or PICTURE stands right before it.
    PictureOrIs,
}

/// What stands before a place of the text.
#[derive(Clone, Copy, Debug)]
pub struct Before {
    pub wish: Wish,
    /// Whether a sign here may belong to a number: a space, `(` or a line's start stands before it.
    pub spaced: bool,
}
