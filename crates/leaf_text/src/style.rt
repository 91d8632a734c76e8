// How a statement is put.

// Which of the two texts: the written card, or the reduced program.
#[derive(Clone, Copy)]
pub enum Form {
    Written,
    Reduced,
}

// In which text, with which local state, for how many seats, and in how many copies.
#[derive(Clone, Copy)]
pub struct Style {
    pub form: Form,
    pub own: usize,
    pub seats: usize,
    pub copies: usize,
}
