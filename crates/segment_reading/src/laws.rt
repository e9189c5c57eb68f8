//! What is true over any course of a reading. Each function stands for the law that its contract states; a
//! call of it does nothing.
ghost use Rattle.segment_reading.specs.Course.{AnswersLoseNothing, IsLostExactly, OtherAnswersChangeNothing};

/// Where the reader's own question is answered alike, the segment is lost exactly where, in the last two rounds,
/// more of the same pairs of a server and its generation were Missing than the parity makes good. What was
/// Missing in a round is what servers told in answer to its question, not what the reading keeps of it.
pub fn lost_after_two_rounds()
    ensures { IsLostExactly }
{}

/// No answer of a server loses the segment: the reader's own question alone does. And what answers another
/// question than that of the present round changes nothing.
pub fn answers_lose_nothing()
    ensures nothing_lost { AnswersLoseNothing }
    ensures nothing_changed { OtherAnswersChangeNothing }
{}
