// The logicals of a tableau.
ghost use Rattle.std.specs.Prelude.{◌≡◌, ◌+◌, ◌<◌};
ghost use Rattle.spec_simplex.specs.Tableau.{all_columns};

use lp_tableau::Tableau;

// The number of the logical column of a row, by the row's number.
pub(crate) fn logical(tab: &Tableau, row: u32) -> u32
    requires { row < tab.now.rows }
    ensures value { result ≡ tab.now.cols + row }
    ensures inside { result < all_columns tab.now }
{
    tab.width() - 2 * tab.rows() + row
}
