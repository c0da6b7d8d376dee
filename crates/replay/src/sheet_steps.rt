// The sheet check.
use crate::cases::Case;
use crate::compare::same_refusal;

pub(crate) fn check_sheet(case: Case, sheet: &[u8]) -> bool {
    same_refusal(sheet::check_sheet(sheet), case)
}
