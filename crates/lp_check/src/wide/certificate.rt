// Certificates and verdicts, with numbers of any width.
use lp_base::Items;
use lp_ratio::Ratio;

/// A list of numbers of any width.
pub type Ratios = Items<Ratio>;

/// A certificate of one model, whose lists have a number for each column or row.
pub type Certificate = spec_check::Certificate<Ratios>;

/// What a certificate shows.
pub type Known = spec_check::Known<Ratio>;

/// What a check of a certificate says.
#[derive(Drop)]
pub enum Verdict {
    /// The certificate shows this.
    Yes(Known),
    /// The number of the first condition that fails.
    No(u32),
}
