//! The cell table and the LEF.
pub(crate) const TABLE: &str = "[[cell.SDF.path]]
in = \"SI\"
bits = [0]
out = { Q = 0, QN = 1 }
[[cell.LK.path]]
in = \"D\"
bits = []
out = { Q = 0 }
[[cell.BUF.path]]
in = \"A\"
bits = []
out = { Z = 0 }
";

pub(crate) const LEF: &str = "MACRO SDF
  SIZE 2 BY 2 ;
  PIN SI PORT LAYER M1 ; RECT 0.9 0.9 1.1 1.1 ; END END SI
  PIN Q PORT LAYER M1 ; RECT 0.9 0.9 1.1 1.1 ; END END Q
  PIN QN PORT LAYER M1 ; RECT 0.9 0.9 1.1 1.1 ; END END QN
END SDF
END LIBRARY
";
