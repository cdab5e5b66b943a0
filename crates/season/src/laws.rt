// Theorems about refusals and table files. Each function's contract is the theorem, and its body is empty.
ghost use Rattle.season.specs.Encoding.{ReadBack, TakenEncodes};
ghost use Rattle.season.specs.Refused.{ToldApart};

// No two refusals have the same number and place.
pub fn refusals_told_apart()
    ensures { ToldApart }
{}

// The file of every table within the limits is taken, where lent memory is long enough, and the table read is that one.
pub fn tables_read_back()
    ensures { ReadBack }
{}

// Every file that is taken is the file of a table within the limits: the one that is read.
pub fn taken_files_encode()
    ensures { TakenEncodes }
{}
