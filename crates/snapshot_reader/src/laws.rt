// Laws of reading.
ghost use Rattle.snapshot_reader.specs.Reading.{OneAnswer, ReadsBack};

/// There is one answer to the same bytes.
pub fn law_one_answer()
    ensures { OneAnswer }
{}

/// What is written of a snapshot that meets the conditions is read back as that snapshot, and has no other answer.
pub fn law_read_back()
    ensures { ReadsBack }
{}
