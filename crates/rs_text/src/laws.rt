//! What the definitions of tokens, names and numbers say together. The functions do nothing: each states a law.

ghost use Rattle.std.specs.Prelude.{◌≡◌, ◌≢◌, ◌≤◌, ◌↔◌, ◌||◌, ◌++◌, ◌∷◌, ◌+◌, ℕ, List, [], Bool, Some, None, drop, length, slice_get, true, false};
ghost use Rattle.std.specs.Fmt.{decimal};
ghost use Rattle.std.specs.List.{All, list_all};
ghost use Rattle.rs_text.specs.Bytes.{is_blank, is_digit, is_word_byte, begins};
ghost use Rattle.rs_text.specs.Lexemes.{Lexeme, is_last, signs_of};
ghost use Rattle.rs_text.specs.Lexing.{Lexed, next_lexeme};
ghost use Rattle.rs_text.specs.Names.{place_of, is_among, names_with, differ};
ghost use Rattle.rs_text.specs.NamePlaces.{StandsFirst};
ghost use Rattle.rs_text.specs.Signs.{Sign, finish, number, plain, word_sign};
ghost use Rattle.rs_text.specs.Tokens.{AreTokens, IsNext, IsToken, IsWithin};
ghost use Rattle.rs_text.specs.Words.{is_role_word, is_word};
ghost use Rattle.rs_text.specs.Writing.{IsWritten};

/// What is cut off from the front of a text is its next token, and nothing else is.
pub fn next_token_is_next()
    ensures { (bytes : List ℕ) (at : ℕ) (l : Lexeme) → (l ≡ next_lexeme bytes at) ↔ IsNext bytes at l }
{}

/// Tokens cut off one by one are the tokens of the text.
pub fn cut_off_are_tokens()
    ensures { (bytes : List ℕ) (at : ℕ) (lexemes : List Lexeme) → Lexed bytes at lexemes ↔ AreTokens bytes at lexemes }
{}

/// A text has tokens.
pub fn has_tokens()
    ensures { (bytes : List ℕ) (at : ℕ) → at ≤ length bytes → (lexemes : List Lexeme) × AreTokens bytes at lexemes }
{}

/// A text has one list of tokens.
pub fn has_one_list_of_tokens()
    ensures { (bytes : List ℕ) (at : ℕ) (these others : List Lexeme) → AreTokens bytes at these → AreTokens bytes at others → these ≡ others }
{}

/// A token lies within the text, behind the ones before it.
pub fn tokens_are_in_order()
    ensures { (bytes : List ℕ) (at : ℕ) (l : Lexeme) → at ≤ length bytes → IsNext bytes at l → IsWithin bytes at l }
{}

/// A plain word can be a role's name, and so a label's.
pub fn plain_words_are_words()
    ensures { (bytes : List ℕ) (at : ℕ) (l : Lexeme) (name : List ℕ) → IsNext bytes at l → l.sign ≡ plain name → is_role_word name ≡ true }
{}

/// At the end of a text its end is the next token, again and again.
pub fn end_comes_again()
    ensures { (bytes : List ℕ) → next_lexeme bytes (length bytes) ≡ record { sign = finish; from = length bytes; until = length bytes } }
{}

/// A number that is written in decimal is read as that number, where no digit stands behind it.
pub fn decimal_is_a_number()
    ensures { (n : ℕ) (behind : List ℕ) → n ≤ 4294967295 → begins is_digit behind ≡ false → IsToken (number n) (decimal n) behind }
{}

/// A word is a token where no byte of a word stands behind it.
pub fn word_is_a_token()
    ensures { (text behind : List ℕ) → is_word text ≡ true → begins is_word_byte behind ≡ false → IsToken (word_sign text) text behind }
{}

/// A text that is written for some tokens is cut into these, before whatever tokens stand behind it.
pub fn written_text_is_lexed()
    ensures { (bytes : List ℕ) (at : ℕ) (signs : List Sign) (text behind : List ℕ) (others : List Lexeme) → drop at bytes ≡ text ++ behind → IsWritten signs text behind
        → Lexed bytes (at + length text) others → (lexemes : List Lexeme) × (signs_of lexemes ≡ signs) × All (λ l. (at ≤ l.from) × (l.until ≤ at + length text)) lexemes
        × Lexed bytes at (lexemes ++ others) }
{}

/// One token is written by its text.
pub fn token_is_written()
    ensures { (sign : Sign) (text behind : List ℕ) → IsToken sign text behind → is_last sign ≡ false → IsWritten (sign ∷ []) text behind }
{}

/// A blank is written for no token.
pub fn blank_is_written()
    ensures { (byte : ℕ) (behind : List ℕ) → is_blank byte ≡ true → IsWritten [] (byte ∷ []) behind }
{}

/// Two texts, one behind the other, are written for the tokens of both.
pub fn written_texts_join()
    ensures { (signs others : List Sign) (text more behind : List ℕ) → IsWritten signs text (more ++ behind) → IsWritten others more behind → IsWritten (signs ++ others) (text ++ more) behind }
{}

/// The place of a name is the first at which it stands.
pub fn place_is_the_first()
    ensures { (name : List ℕ) (names : List (List ℕ)) (place : ℕ) → (place_of name names ≡ Some place) ↔ StandsFirst name names place }
{}

/// A name that stands nowhere has no place.
pub fn absent_has_no_place()
    ensures { (name : List ℕ) (names : List (List ℕ)) → (place_of name names ≡ None) ↔ ((k : ℕ) → slice_get names k ≢ Some name) }
{}

/// A name keeps its place where others are put behind.
pub fn place_stays()
    ensures { (name : List ℕ) (names more : List (List ℕ)) (place : ℕ) → place_of name names ≡ Some place → place_of name (names ++ more) ≡ Some place }
{}

/// So it does where the names grow.
pub fn place_stays_in_grown()
    ensures { (name : List ℕ) (names more : List (List ℕ)) (place : ℕ) → place_of name names ≡ Some place → place_of name (names_with names more) ≡ Some place }
{}

/// A new name gets the place behind all others.
pub fn new_name_is_last()
    ensures { (name : List ℕ) (names : List (List ℕ)) → place_of name names ≡ None → place_of name (names ++ name ∷ []) ≡ Some (length names) }
{}

/// A name is among the grown ones exactly where it is among the old or the further ones.
pub fn grown_has_both()
    ensures { (name : List ℕ) (names more : List (List ℕ)) → is_among name (names_with names more) ≡ (is_among name names || is_among name more) }
{}

/// Names that differ still do so when they have grown.
pub fn grown_names_differ()
    ensures { (names more : List (List ℕ)) → differ names ≡ true → differ (names_with names more) ≡ true }
{}

/// What holds of the old names and of the further ones holds of them all.
pub fn grown_names_pass()
    ensures { (test : List ℕ → Bool) (names more : List (List ℕ)) → list_all test names ≡ true → list_all test more ≡ true → list_all test (names_with names more) ≡ true }
{}
