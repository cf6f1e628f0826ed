//! The commands of the companion.

/// How the program is called.
pub const USAGE: &str = "usage: iolb-explain help [COMMAND | fault N | condition N]
       iolb-explain version
       iolb-explain program FILE
       iolb-explain vertex FILE VERTEX NAME=NUMBER...
       iolb-explain schedule FILE SCHEDULE NAME=NUMBER...
       iolb-explain compare [csv | json] FILE CERTIFICATE SCHEDULE... S,S,... NAME=NUMBER...
       iolb-explain refusal FILE CERTIFICATE
       iolb-explain bound FILE [CERTIFICATE]
";

/// What a page of help is about.
#[derive(Clone, Copy, Debug, PartialEq, Eq)]
pub enum Topic {
    Help,
    Version,
    Program,
    Vertex,
    Schedule,
    Compare,
    Refusal,
    Bound,
}

const HELP: &str = "iolb-explain help
    prints how the program is called.
iolb-explain help COMMAND
    prints what a command does.
iolb-explain help fault N
    prints what fault N of a program's text is, and what to write instead.
iolb-explain help condition N
    prints when condition N of a certificate holds, and what its places name.
The statuses are 0; 1, something was found wrong; 2, the words aren't as in the usage; 3, a file isn't read, or a write or memory failed.
";

const VERSION: &str = "iolb-explain version
    prints the program's name and version.
";

const PROGRAM: &str = "iolb-explain program FILE
    prints whether the program is read. If it isn't, a line `FILE:LINE:COLUMN: error: ..` says why, with the source line, what to
    write instead, and the fault's number. If it is: its parameters, its assumptions, its arrays, its statements with their numbers,
    and the reads of each with theirs; and warnings of what keeps bounds from being found.
";

const VERTEX: &str = "iolb-explain vertex FILE VERTEX NAME=NUMBER...
    prints what a vertex of the computation graph is where the parameters are these numbers. VERTEX is the vertex's number, as
    `iolb replay` prints it; or STATEMENT:VALUE,VALUE,.. for the instance of a statement at these values of its loops, as `0:1,3`; or
    ARRAY:VALUE,VALUE,.. for the input in this cell, as `A:3`.
";

const SCHEDULE: &str = "iolb-explain schedule FILE SCHEDULE NAME=NUMBER...
    prints whether the order of a schedule can be played where the parameters are these numbers, and else which instance comes
    before which one whose value it reads.
";

const COMPARE: &str =
    "iolb-explain compare [csv | json] FILE CERTIFICATE SCHEDULE... S,S,... NAME=NUMBER...
    prints a table with a row for each number S of words of fast memory and each schedule: the bound, the loads and the stores of
    the schedule, and the loads over the bound. Where a schedule has a list in the place of a divisor, as in `[F, [4,8,16]]`, each of
    its numbers is played, with all choices of other lists, at most 256; the divisors stand behind the schedule's name. A schedule
    that can't be played has no numbers, and the reason stands below the table. `csv` prints comma-separated values, `json` a line of
    JSON for each row.
";

const REFUSAL: &str = "iolb-explain refusal FILE CERTIFICATE
    prints whether a certificate meets the conditions, and else which it fails, in a sentence, with the line and column of the
    place in the certificate's text; for a list how long it is and has to be; and for multipliers of a source tree, of a nest's
    ranges and of instances the variables, the rows with what each says, the goal, what they sum to, and what is missing.
";

const BOUND: &str = "iolb-explain bound FILE [CERTIFICATE]
    prints the bound that a certificate gives, or the one that is made for the program, branch by branch and term by term: what is
    counted, the read and the statement with their places, what the term is worth, and its leading term; arrays that are read and of
    which no term counts a word; and reads without a source tree. Of a bound that is made of cold terms alone, or of none, it says
    what else was tried, and which condition wasn't shown.
";

/// The page of help on a topic.
pub fn command_help(topic: Topic) -> &'static str {
    match topic {
        Topic::Help => HELP,
        Topic::Version => VERSION,
        Topic::Program => PROGRAM,
        Topic::Vertex => VERTEX,
        Topic::Schedule => SCHEDULE,
        Topic::Compare => COMPARE,
        Topic::Refusal => REFUSAL,
        Topic::Bound => BOUND,
    }
}

impl Topic {
    /// The topic that a word names.
    pub fn of(word: &str) -> Option<Topic> {
        match word {
            "help" => Some(Topic::Help),
            "version" => Some(Topic::Version),
            "program" => Some(Topic::Program),
            "vertex" => Some(Topic::Vertex),
            "schedule" => Some(Topic::Schedule),
            "compare" => Some(Topic::Compare),
            "refusal" => Some(Topic::Refusal),
            "bound" => Some(Topic::Bound),
            _ => None,
        }
    }
}
