// A number that a step takes or gives. The product of two of them fits 64 bits.
ghost use Rattle.std.specs.Prelude.{◌≡◌, ◌≤◌, pos, nat_abs};
ghost use Rattle.formula.specs.Grammar.{most_number, most_step};

#[derive(Clone, Copy)]
pub struct Amount {
    pub value: i64,
    pub ghost bounded: { nat_abs value ≤ most_step },
}

impl Amount {
    // A number of a formula, or what N stands for.
    pub fn of(number: u32) -> Amount
        requires { number ≤ most_number }
        ensures { result.value ≡ pos number }
    {
        Amount {
            value: i64::from(number),
        }
    }
}
