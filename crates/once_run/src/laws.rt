//! What holds of the definitions: the bytes of an input determine what they are answered with.
ghost use Rattle.std.specs.Prelude.{◌≡◌, List, ℕ};
ghost use Rattle.once_run.specs.Once.{IsAnswered, IsRefused};

/// An input is answered with one text at most.
pub fn one_answer(input: &[u8], text: &[u8], other: &[u8])
    requires answered { IsAnswered input.now text.now }
    requires also { IsAnswered input.now other.now }
    ensures { text.now ≡ other.now }
{}

/// An input is refused with one line at most.
pub fn one_refusal(input: &[u8], line: &[u8], other: &[u8])
    requires refused { IsRefused input.now line.now }
    requires also { IsRefused input.now other.now }
    ensures { line.now ≡ other.now }
{}

/// An input that is answered is not refused.
pub fn no_refusal_of_a_case(input: &[u8], text: &[u8])
    requires { IsAnswered input.now text.now }
    ensures { (line : List ℕ) → ¬ IsRefused input.now line }
{}
