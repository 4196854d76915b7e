// The nominal volts of a formula, as many as a line's field may hold.
ghost use Rattle.std.specs.Prelude.{◌≤◌};
ghost use Rattle.formula.specs.Grammar.{most_volts};

#[derive(Clone, Copy)]
pub struct Volts {
    pub volts: u32,
    pub ghost most: { volts ≤ most_volts },
}
