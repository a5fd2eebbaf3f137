//! The law of the files of made designs, carried by a contract.
ghost use Rattle.made_law.specs.Files.Laws.{FilesLaw, HeadFilesLaw};

/// Of the made cell table, LEF, Verilog and DEF of 8 to 16384 units together no fault holds, neither of a file by itself nor of all
/// together: without patterns, and beside patterns whose head has the ScanChain blocks of these units. It does nothing; its contract is
/// the law.
pub fn made_files_law()
    ensures law { FilesLaw }
    ensures with_head { HeadFilesLaw }
{}
