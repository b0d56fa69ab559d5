//! Laws of command files: each function does nothing, and its contract is the law.

ghost use Rattle.cmd_text.specs.Laws.{FilesHaveOneScript, BadTextsHaveOneLine, FilesAreNotBad, TextsAreOneOfBoth, ScriptsAreReadAgain, FilesAreFewForFewMetaslabs};

/// A text is the file of at most one script.
pub fn files_have_one_script()
    ensures { FilesHaveOneScript }
{}

/// A text has at most one first bad line.
pub fn bad_texts_have_one_line()
    ensures { BadTextsHaveOneLine }
{}

/// A file has no first bad line.
pub fn files_are_not_bad()
    ensures { FilesAreNotBad }
{}

/// A text that is no file has a first bad line: it cannot lack both.
pub fn texts_are_one_of_both()
    ensures { TextsAreOneOfBoth }
{}

/// The text of a script that was read, with each command in its line and nothing else, is read as this script.
pub fn scripts_are_read_again()
    ensures { ScriptsAreReadAgain }
{}

/// Over at most 20 metaslabs, so over one, no file has a command past the limit of commands times metaslabs.
pub fn files_are_few_for_few_metaslabs()
    ensures { FilesAreFewForFewMetaslabs }
{}
