// A product taken off a number, and what is known of fractions.
ghost use Rattle.std.specs.Prelude.{◌≡◌, Some, All};
ghost use Rattle.spec_exact.specs.Narrow.{IsNarrow, number_limit};
ghost use Rattle.spec_exact.specs.Run as run;

use lp_frac::{Frac, Fracs, Past, is_zero, less_product, narrow};

// `s` less `v * w`. `v` is often 0: then nothing is computed.
#[inline(always)]
pub(crate) fn less_part(v: Frac, w: Frac, s: Frac) -> Result<Frac, Past>
    requires w_narrow { IsNarrow w }
    requires s_narrow { IsNarrow s }
    ensures { result ≡ run.less_product (Some number_limit) v w s }
{
    if is_zero(v) {
        return Ok(s);
    }
    less_product(v, w, s)
}

// Does nothing: proofs take from the call that the parts of each fraction of `v` have at most 127 bits.
pub(crate) fn tell_narrow(v: &Fracs)
    ensures { All IsNarrow v.now }
{
    for i in 0..v.len() {
        let _item = narrow(v.at(i));
    }
}
