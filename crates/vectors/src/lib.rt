// Calls and answers as numbers, one a line: read from standard input in whatever pieces it comes, and gathered for standard output.
#![tactic(auto)]

ghost use Rattle.std.specs.Prelude.{◌≡◌, ℕ, ◌-◌, ◌^◌, ◌≤◌};

pub mod input; // input.rt: numbers and tables read
pub mod output; // output.rt: numbers and tables put

// A number of 32 or 64 bits, as a table holds it.
pub trait Number: Copy {
    const MOST: u64;

    ghost MOST: { ℕ };

    ghost number: { Self → ℕ };

    // The same number, of this type.
    fn narrow(n: u64) -> Self
        requires { n ≤ MOST }
        ensures { number result ≡ n };
}

impl Number for u32 {
    const MOST: u64 = u32::MAX as u64;

    ghost MOST = { 2 ^ 32 - 1 };

    ghost number = { λ n. n };

    fn narrow(n: u64) -> u32 {
        n as u32
    }
}

impl Number for u64 {
    const MOST: u64 = u64::MAX;

    ghost MOST = { 2 ^ 64 - 1 };

    ghost number = { λ n. n };

    fn narrow(n: u64) -> u64 {
        n
    }
}
