// A number that none of 01's refusals has.

ghost use Rattle.std.specs.Prelude.{◌≡◌, false};
ghost use Rattle.refusals.specs.Listed.{is_listed};

#[derive(Clone, Copy, Debug, PartialEq, Eq)]
pub struct OtherNumber {
    pub number: u8,
    pub ghost unlisted: { is_listed number ≡ false },
}
