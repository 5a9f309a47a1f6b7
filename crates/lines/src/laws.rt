// Each function stands for the theorem in its contract.
ghost use Rattle.lines.specs.Laws.{ColumnsStand, ReadingStands, ReadsBack};

/// Where a line is refused, in terms of the lines that are well formed.
pub fn columns_stand()
    ensures { ColumnsStand }
{}

/// A line has one answer, and one that is accepted is the text of its call.
pub fn reading_stands()
    ensures { ReadingStands }
{}

/// A command that is written is read back.
pub fn reads_back()
    ensures { ReadsBack }
{}
