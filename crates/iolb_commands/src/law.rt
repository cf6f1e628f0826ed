//! That a call has one outcome, that causes are answered, and that bounds are below plays.

ghost use Rattle.iolb_commands.specs.Laws.{AbsentProgramsAreNamed, AbsentSecondFilesAreNamed, AbsentStoresAreNamed, BoundsAreBelowPlays, CausesAreAnswered, CompletePlaysPass, FailingCertificatesAreRefused, FailingStoresAreRefused, IllegalMovesAreRefused, OtherMovesAreRefused, OtherWordsAreRefused, OthersNeverPass, OutcomesAreOne, PlayableSchedulesPass, ReadableProgramsHaveCertificates, SamplesAreAnswered, SureCallsAreUndisturbed, UndisturbedCallsHaveNoFault, UnfinishedPlaysAreRefused, ValidCertificatesPass, ValidStoresPass};

use affine_c::texts_mean_one_program;
use iolb_cert::{texts_have_one_answer, texts_have_one_certificate};
use iolb_check::law::answers_are_exact;
use iolb_host::sure_files_never_fail;
use memory_levels::law::{plays_have_one_answer, texts_of_moves_are_exact};
use store_bound::law::stores_are_exact;
use store_text::stores_are_one;
use tile_sched::{replays_are_one, schedules_are_one};

/// A law of `run`'s outcomes, over files that tell what they hold. Two outcomes of one call in which no read and no write
/// failed, and that aren't want of memory, have the same status, and the output and the standard error have gained the
/// same bytes; only where `bound` gives 0 the bytes may be those of another certificate that meets the conditions, and of its
/// bound, and where `sample` does the value of one. `sample` gives 0 or 9. Where the program and the certificate are readable, and the certificate meets the conditions, `check`
/// gives 0 or 9, and with sizes that meet the assumptions and no wide value `eval`, `parallel` and `levels` give 0 or 9; where
/// it doesn't meet them, none of them gives 0. Where the program and the schedule are readable and the schedule can be played
/// at the sizes, `replay` gives 0 or 9, and so does `climb` where the moves are a complete play at the sizes, and `traffic` where the
/// stores are readable too and meet their conditions, and nothing is wide at the sizes. Where the program is readable `bound`
/// gives 0 or 9. And where an `eval` and a `replay` about one program, at the same sizes and with as many
/// red pebbles, both give 0, the value of the first is at most the loads of the second.
pub fn outcomes_are_one()
    ensures one { OutcomesAreOne }
    ensures valid { ValidCertificatesPass }
    ensures others { OthersNeverPass }
    ensures playable { PlayableSchedulesPass }
    ensures climbed { CompletePlaysPass }
    ensures stored { ValidStoresPass }
    ensures bounded { ReadableProgramsHaveCertificates }
    ensures sampled { SamplesAreAnswered }
    ensures below { BoundsAreBelowPlays }
{
    texts_mean_one_program();
    texts_have_one_certificate();
    texts_have_one_answer();
    answers_are_exact();
    schedules_are_one();
    replays_are_one();
    texts_of_moves_are_exact();
    plays_have_one_answer();
    stores_are_one();
    stores_are_exact();
}

/// Laws of `run`'s outcomes, over files that tell what they hold, where no read and no write failed: what there is to say against
/// a call is said, or memory is wanted. Words that ask for nothing give 2 and the usage text. A cause to stop gives its
/// status and its line; so a file that isn't there, or is too long, gives 5 and its name, a certificate of which a condition
/// fails gives 1 and the first that does, and so do stores; a line that is none of a move gives 4 and its first byte, and a move
/// that isn't allowed, or an instance that is left unfinished, gives 1 and the first such.
pub fn causes_are_answered()
    ensures words { OtherWordsAreRefused }
    ensures causes { CausesAreAnswered }
    ensures programs { AbsentProgramsAreNamed }
    ensures seconds { AbsentSecondFilesAreNamed }
    ensures failing { FailingCertificatesAreRefused }
    ensures thirds { AbsentStoresAreNamed }
    ensures failing_stores { FailingStoresAreRefused }
    ensures lines { OtherMovesAreRefused }
    ensures illegal { IllegalMovesAreRefused }
    ensures unfinished { UnfinishedPlaysAreRefused }
{
    texts_mean_one_program();
    texts_have_one_certificate();
    texts_have_one_answer();
    answers_are_exact();
    schedules_are_one();
    replays_are_one();
    texts_of_moves_are_exact();
    plays_have_one_answer();
    stores_are_one();
    stores_are_exact();
}

/// A call in which no read and no write failed doesn't end with 6 or 7, whatever files and sinks tell, and over files and sinks
/// in memory of which every read and every write succeeds each call is such a one.
pub fn sure_calls_have_no_fault()
    ensures calm { UndisturbedCallsHaveNoFault }
    ensures sure { SureCallsAreUndisturbed }
{
    sure_files_never_fail();
}
