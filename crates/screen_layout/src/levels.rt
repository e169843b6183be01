ghost use Rattle.std.specs.Prelude.{◌≡◌};
ghost use Rattle.screen_layout.specs.Placing.{goes_on};

use data_layout::rank_of;
use screen_rows::ScreenRow;

/// Whether a row that follows a group goes on in it.
pub fn does_go_on(group: &ScreenRow, row: &ScreenRow) -> bool
    ensures { result ≡ goes_on group.now row.now }
{
    rank_of(group.level) < rank_of(row.level)
}
