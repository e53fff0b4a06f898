ghost use Rattle.std.specs.Prelude.{◌≡◌, ℕ, Bool, List, map, All, IfOk, false};
ghost use Rattle.std.specs.List.{list_any};
ghost use Rattle.text_spec.specs.Texts.{is_feed, lines_from, words_from, whole_lines};
ghost use Rattle.text_spec.specs.declared.RuleForm.{RuleForm};
ghost use Rattle.text_spec.specs.RuleTexts.{rule_answers, subject_answers, label_answers, all_words, only_word};
ghost use Rattle.rule_text.specs.Slices.{LiesIn, LiesInItsLine, line_part, Adjoin, AreApart, moved_line, moved_word};

/// A law of lines: each is the slice of the text at its place, each begins where the one before
/// it ends, no line feed is in one, and with their line feeds they are the whole text.
pub fn lines_are_slices()
    ensures slices { (at : ℕ) (text : List ℕ) →
        All (λ l. LiesIn at text (line_part l)) (lines_from at text) }
    ensures order { (at : ℕ) (text : List ℕ) → Adjoin at (lines_from at text) }
    ensures feeds { (at : ℕ) (text : List ℕ) →
        All (λ l. list_any is_feed l.bytes ≡ false) (lines_from at text) }
    ensures whole { (at : ℕ) (text : List ℕ) → whole_lines (lines_from at text) ≡ text }
{}

/// A law of words: each is the slice of the line at its place, and of the text that the line lies
/// in; and each begins behind the one before it.
pub fn words_are_slices()
    ensures slices { (blank : ℕ → Bool) (at : ℕ) (line : List ℕ) →
        All (LiesIn at line) (words_from blank at line) }
    ensures in_lines { (blank : ℕ → Bool) (at : ℕ) (text : List ℕ) →
        All (λ l. All (LiesIn at text) (words_from blank l.at l.bytes)) (lines_from at text) }
    ensures order { (blank : ℕ → Bool) (at : ℕ) (line : List ℕ) →
        AreApart at (words_from blank at line) }
{}

/// A law of places: a text elsewhere has the same lines and words, their places moved.
pub fn places_move()
    ensures lines { (at : ℕ) (text : List ℕ) →
        lines_from at text ≡ map (moved_line at) (lines_from 0 text) }
    ensures words { (blank : ℕ → Bool) (at : ℕ) (line : List ℕ) →
        words_from blank at line ≡ map (moved_word at) (words_from blank 0 line) }
{}

/// A law of rule texts: each field of a good line is the slice of the text at its place, within
/// the line whose number the good line has.
pub fn rule_fields_are_slices()
    ensures { (form : RuleForm) (text : List ℕ) →
        All (λ answer. IfOk answer (LiesInItsLine 1 (lines_from 0 text))) (rule_answers form text) }
{}

/// A law of lists of labels and of lines of subjects: each is the slice of the text at its place.
pub fn labels_are_slices()
    ensures labels { (text : List ℕ) → All (λ answer. IfOk answer (LiesIn 0 text)) (label_answers (all_words text)) }
    ensures subjects { (text : List ℕ) → All (λ answer. IfOk answer (LiesIn 0 text)) (subject_answers text) }
    ensures only { (text : List ℕ) → IfOk (only_word (all_words text)) (LiesIn 0 text) }
{}
