// Why a call did nothing. Each refusal has its number of the C header.
#[derive(Clone, Copy, Debug, PartialEq, Eq)]
pub enum Refusal {
    BadSize = 1,
    ShortDraw = 2,
    BadField = 3,
    Mismatch = 4,
    BadProfile = 5,
    OtherDevice = 6,
    OldSerial = 7,
    StoreFull = 8,
    NotStored = 9,
    BadDevice = 10,
    BadFormula = 11,
    BadStep = 12,
    BadTable = 13,
    StoreInUse = 14,
}
