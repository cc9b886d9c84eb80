//! Laws on the texts of scripts and their replies.

ghost use Rattle.std.specs.Prelude.{◌≡◌, ◌<◌, ◌∷◌, [], ℕ, List, All};
ghost use Rattle.ups_pdu.specs.Padding.{without_padding};
ghost use Rattle.ups_lines.specs.Escapes.{StandsFor};
ghost use Rattle.ups_lines.specs.Elements.{Encodes};
ghost use Rattle.ups_lines.specs.Words.{words_of};
ghost use Rattle.ups_lines.specs.Printing.{printed};

/// Does nothing at run time: its contract tells a proof that a printed value is one word, which encodes the value
/// without the padding at its end, and nothing else.
pub fn what_is_printed_is_read_again()
    ensures word { (value : List ℕ) → words_of (printed value) ≡ printed value ∷ [] }
    ensures again { (value : List ℕ) → All (λ byte. byte < 256) value → StandsFor (printed value) (without_padding value) }
    ensures alone { (text : List ℕ) → (one : List ℕ) → (other : List ℕ) → StandsFor text one → StandsFor text other → one ≡ other }
{}

/// Does nothing at run time: its contract tells a proof that the words of an exact line stand for one data set.
pub fn words_encode_one_data_set()
    ensures { (words : List (List ℕ)) → (one other : List ℕ) → Encodes words one → Encodes words other → one ≡ other }
{}
