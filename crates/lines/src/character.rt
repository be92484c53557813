/// A character as it comes off the line, and whether it was damaged on the way.
#[derive(Clone, Copy)]
pub struct Character {
    pub byte: u8,
    pub damaged: bool,
}
