// What the verification of an opening answers.

// The opening is accepted or rejected, or the number of the refusal. The customer names this form, the number in it too, so it
// is no Result and holds no Refusal.
#[derive(Clone, Copy, Debug, PartialEq, Eq)]
pub enum Verdict {
    Accepted,
    Rejected,
    Refused(u8),
}
