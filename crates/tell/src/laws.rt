//! What the definitions keep, as laws: a call does nothing, and its contract is the law.

ghost use Rattle.tell.specs.Promises.{OneReplyToDates, OneReportOfDates, OneAgoAnswer, OneAgoReport, EveryMeaningIsTold, EveryPlainFormIsTold};
ghost use Rattle.tell.specs.ReadBack.{ToldWordsAreReadBack};

use interim::laws::parts_mean_one_thing;
use timeago::laws::{default_texts, one_text};
use timeline::laws::one_verdict;

/// A line of a date has one reply at most: whatever is a reply to it by the definition is the same text.
pub fn one_reply()
    ensures { OneReplyToDates }
{
    one_text();
    parts_mean_one_thing();
    one_verdict();
}

/// Lines of dates have one report at most: the report that a run gains is told by its bundle and its input.
pub fn one_report()
    ensures { OneReportOfDates }
{
    one_reply();
}

/// A phrase that means a moment is told by that moment: a lawful zone and a base in its range refuse nothing.
pub fn every_meaning_is_told()
    ensures { EveryMeaningIsTold }
{
    parts_mean_one_thing();
    one_verdict();
}

/// A phrase of the plain form is told by the moment at which the zone places its wall second: a lawful zone and a base in its
/// range refuse none.
pub fn plain_forms_are_told()
    ensures { EveryPlainFormIsTold }
{
    one_verdict();
}

/// A line of seconds has exactly one answer.
pub fn one_ago_answer()
    ensures { OneAgoAnswer }
{
    one_text();
}

/// Lines of seconds have one report at most: the report that a run gains is told by its input.
pub fn one_ago_report()
    ensures { OneAgoReport }
{
    one_ago_answer();
}

/// What is told of a distance can be read back: from one second to less than 10,000 years the words
/// of a new formatter are a phrase, which is read as so many of the told unit back.
pub fn told_words_are_read_back()
    ensures { ToldWordsAreReadBack }
{
    default_texts();
}
