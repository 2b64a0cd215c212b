// A refusal on what prints, as the standard output. What it does not take is lost.
pub fn refused(out: &impl Print, refusal: u64) {
    let _ = print!(out; " refused {refusal}");
}
