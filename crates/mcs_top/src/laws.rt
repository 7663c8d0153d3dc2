//! Laws of the definitions. The functions do nothing; their contracts are the laws.
ghost use Rattle.mcs_top.specs.Calls.{ACheckReadsEachSource, AReplayReadsTwoFiles, AShowReadsOneFile};

/// States all calls of a replay that ends with status 0 or 6, in order: the description is opened, and
/// closed when it was read to its end; then so is the script; then the journal, the transcripts and the
/// summary are written, each in one write. A store that shows its calls shows these and no others.
pub fn a_replay_reads_two_files()
    ensures { AReplayReadsTwoFiles }
{}

/// States all calls of a check that ends with status 0, in order: the description is opened, and closed
/// when it was read to its end; then so is the file of each unit, in order; then there is one write. A store
/// that shows its calls shows these and no others.
pub fn a_check_reads_each_source()
    ensures { ACheckReadsEachSource }
{}

/// States all calls of a show that ends with status 0, in order: the file is opened, and closed when it
/// was read to its end; then there is one write. A store that shows its calls shows these and no others.
pub fn a_show_reads_one_file()
    ensures { AShowReadsOneFile }
{}
