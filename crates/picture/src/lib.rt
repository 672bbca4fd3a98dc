// Pictures: the definitions are in specs/, and here the step that they share with the code.
#![tactic(auto)]

// A step to a neighbour.
#[derive(Clone, Copy)]
pub struct Step {
    pub column: i8,
    pub row: i8,
}
