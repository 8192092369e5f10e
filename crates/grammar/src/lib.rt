// The lines of a sheet as trees: what each word may be followed by, and what a refusal means.
#![tactic(auto)]

ghost use Rattle.grammar.specs.Examples.{ReadLines, RefusedLines};
ghost use Rattle.grammar.specs.Reading.{Reads, Nests, OneReading, WrongWords, ShortLines, DeepWords};

/// What the reading of a line promises: its tree spells exactly its words and nests no deeper than it may, no two trees
/// have the same words, a wrong word is the first that no line has there, a short line only lacks words, and a
/// parenthesis is refused only where as many as may be are open. Of wrong and too deep words the first is told.
pub fn reading_stands()
    ensures reads { Reads }
    ensures nests { Nests }
    ensures one { OneReading }
    ensures wrong { WrongWords }
    ensures short { ShortLines }
    ensures deep { DeepWords }
{}

/// The trees of some lines, and where others are refused.
pub fn samples_stand()
    ensures lines { ReadLines }
    ensures refusals { RefusedLines }
{}
