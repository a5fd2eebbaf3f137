ghost use Rattle.std.specs.Prelude.{◌≡◌};
ghost use Rattle.cell_table.specs.Cells.{table_of};
ghost use Rattle.cell_table.specs.Table.{small_cells};

/// The text of a table of three cells: a scan flop, a latch without a bit and a buffer.
pub fn small_table() -> &'static str
    ensures value { table_of result.now ≡ Ok small_cells }
{
    "[[cell.SDF.path]]\nin = \"SI\"\nbits = [0]\nout = { Q = 0, QN = 1 }\n[[cell.LK.path]]\nin = \"D\"\nbits = []\nout = { Q = 0 }\n[[cell.BUF.path]]\nin = \"A\"\nbits = []\nout = { Z = 0 }\n"
}
