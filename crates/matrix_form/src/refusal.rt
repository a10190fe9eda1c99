// The refusals and their numbers.
ghost use Rattle.matrix_form.specs.Refusals.{refusal_number};

// Why an input is refused. `refusal_number` gives the number of each.
#[derive(Clone, Copy, PartialEq, Eq)]
pub enum Refusal {
    FileTooLong = 1,
    FileEmpty = 2,
    FirstLine = 3,
    BeyondLimits = 4,
    LineMissing = 5,
    NameForm = 6,
    NameTaken = 7,
    FieldCount = 8,
    CodeForm = 9,
    CodeRange = 10,
    FileGoesOn = 11,
    ListSize = 12,
    NotThere = 13,
    NotBranching = 14,
    UnknownOrder = 15,
    WeightForm = 16,
    BranchForm = 17,
}
