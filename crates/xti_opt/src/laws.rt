//! What follows from the definitions: reading and writing undo each other, and the table of negotiation line by line.
//! The functions do nothing; their contracts are the statements.

ghost use Rattle.std.specs.Prelude.{◌≡◌, ◌≢◌, ◌<◌, ◌≤◌, ◌^◌, ℕ, List, [], ◌∷◌, ◌++◌, ◌⊎◌, All, Any, Some, map, length, false};
ghost use Rattle.xti_base.specs.declared.limits.TheConstants.{MOST_SIZE};
ghost use Rattle.xti_base.specs.declared.options.Opt.{Opt};
ghost use Rattle.xti_base.specs.Options.{word_bytes, read_options, options_bytes, IsOption, IsFirstWrongOption};
ghost use Rattle.xti_base.specs.Negotiation.{Settings, negotiate, only_asks, badness, worse, xti_generic, t_negotiate, t_check, t_default, t_current, t_success, t_failure, t_partsuccess, t_readonly};
ghost use Rattle.xti_opt.specs.Table.{Side, all_sizes, generic, buffer, mark, size, start_size, with_size, answers, results, place_of, worked_answer, ChecksAlone, IsNotSupported, IsUnknownName, SetsNothing};
ghost use Rattle.xti_opt.specs.Read.{IsNoList, IsReadBack};

/// Reading what was written gives the options back, and writing what was read gives the bytes back.
pub fn round_trips()
    ensures written { (os : List Opt) → All IsOption os → IsReadBack os }
    ensures read { (bytes : List ℕ) (os : List Opt) → All (λ b. b < 256) bytes →
        read_options bytes ≡ Some os → options_bytes os ≡ bytes }
    // A first wrong option stands only where the bytes are no list of options, and at one place.
    ensures wrong { (bytes : List ℕ) (at : ℕ) → IsFirstWrongOption bytes at → IsNoList bytes }
    ensures one_wrong { (bytes : List ℕ) (at other : ℕ) →
        IsFirstWrongOption bytes at → IsFirstWrongOption bytes other → at ≡ other }
{}

/// How a single option is answered, by the lines of the table.
pub fn negotiation_table()
    ensures unknown_level { (s : Settings) (action : ℕ) (o : Opt) → o.level ≢ xti_generic →
        IsNotSupported s action o }
    ensures unknown_name { (s : Settings) (action name status : ℕ) (value : List ℕ) →
        IsUnknownName name → IsNotSupported s action (generic name status value) }

    // The low-water marks are 1. A check without a value only asks whether there is such an option.
    ensures mark_asked { (s : Settings) (side : Side) (status : ℕ) →
        negotiate s t_check (mark side status [] ∷ []) ≡ answers s (mark side status []) t_readonly [] }
    ensures mark_told { (s : Settings) (side : Side) (action status : ℕ) (value : List ℕ) →
        only_asks action value ≡ false →
        negotiate s action (mark side status value ∷ []) ≡ answers s (mark side status value) t_readonly (word_bytes 1) }

    // The buffers. A size up to 65,536 is set, and a larger one is set to that.
    ensures buffer_asked { (s : Settings) (side : Side) (status : ℕ) →
        negotiate s t_check (buffer side status [] ∷ []) ≡ answers s (buffer side status []) t_success [] }
    ensures size_fits { (s : Settings) (side : Side) (status n : ℕ) → 0 < n → n ≤ MOST_SIZE →
        negotiate s t_negotiate (buffer side status (word_bytes n) ∷ []) ≡
        answers (with_size side n s) (buffer side status (word_bytes n)) t_success (word_bytes n) }
    ensures size_over { (s : Settings) (side : Side) (status n : ℕ) → MOST_SIZE < n → n < 2 ^ 32 →
        negotiate s t_negotiate (buffer side status (word_bytes n) ∷ []) ≡
        answers (with_size side MOST_SIZE s) (buffer side status (word_bytes n)) t_partsuccess (word_bytes MOST_SIZE) }
    ensures size_zero { (s : Settings) (side : Side) (status : ℕ) →
        SetsNothing s side status (word_bytes 0) }
    ensures wrong_length { (s : Settings) (side : Side) (status : ℕ) (value : List ℕ) →
        length value ≢ 4 → SetsNothing s side status value }

    // A check with a value answers as a negotiation does and sets nothing.
    ensures check { (s : Settings) (side : Side) (status : ℕ) (value : List ℕ) →
        only_asks t_check value ≡ false → ChecksAlone s (buffer side status value) }
    ensures current { (s : Settings) (side : Side) (status : ℕ) (value : List ℕ) →
        negotiate s t_current (buffer side status value ∷ []) ≡
        answers s (buffer side status value) t_success (word_bytes (size side s)) }
    ensures default { (s : Settings) (side : Side) (status : ℕ) (value : List ℕ) →
        negotiate s t_default (buffer side status value ∷ []) ≡
        answers s (buffer side status value) t_success (word_bytes (start_size side s)) }
{}

/// How a list of options is answered: one after the other, each in its place, and as a whole by the worst result.
pub fn negotiation_order()
    ensures empty { (s : Settings) (action : ℕ) →
        negotiate s action [] ≡ record { settings = s; options = []; result = t_success } }

    // What comes after is answered with the settings that those before it left.
    ensures in_order { (s : Settings) (action : ℕ) (os more : List Opt) →
        let first = negotiate s action os in
        let rest = negotiate first.settings action more in
        negotiate s action (os ++ more) ≡ record {
          settings = rest.settings;
          options = first.options ++ rest.options;
          result = worse first.result rest.result;
        } }
    ensures seen { (s : Settings) (side : Side) →
        negotiate s t_negotiate (buffer side 0 (word_bytes 100) ∷ buffer side 0 (word_bytes 0) ∷ []) ≡ record {
          settings = with_size side 100 s;
          options = buffer side t_success (word_bytes 100) ∷ buffer side t_failure (word_bytes 100) ∷ [];
          result = t_failure;
        } }

    // Level and name of each stay.
    ensures places { (s : Settings) (action : ℕ) (os : List Opt) →
        map place_of (negotiate s action os).options ≡ map place_of os }
    ensures worst { (s : Settings) (action : ℕ) (os : List Opt) →
        let all = negotiate s action os in
        All (λ o. badness o.status ≤ badness all.result) all.options }
    ensures among { (s : Settings) (action : ℕ) (os : List Opt) →
        let all = negotiate s action os in
        (all.result ≡ t_success) ⊎ Any (λ o. o.status ≡ all.result) all.options }
    ensures rising { map badness results ≡ 0 ∷ 1 ∷ 2 ∷ 3 ∷ 4 ∷ [] }
{}

/// The receive size 70,000 and a low-water mark of 5, negotiated from buffers of 16,384: the size becomes 65,536, which
/// is a part of what was asked, the mark stays 1, and the worse of the two results is that it is read only.
pub fn worked_negotiation()
    ensures answered { let s : Settings = all_sizes 16384 in
        negotiate s t_negotiate (generic 4098 0 (word_bytes 70000) ∷ generic 4099 0 (word_bytes 5) ∷ []) ≡ record {
          settings = record s { rcvbuf = MOST_SIZE };
          options = worked_answer;
          result = 512;
        } }
    ensures bytes { options_bytes worked_answer ≡
        0 ∷ 0 ∷ 0 ∷ 20 ∷ 0 ∷ 0 ∷ 255 ∷ 255 ∷ 0 ∷ 0 ∷ 16 ∷ 2 ∷ 0 ∷ 0 ∷ 1 ∷ 0 ∷ 0 ∷ 1 ∷ 0 ∷ 0 ∷
        0 ∷ 0 ∷ 0 ∷ 20 ∷ 0 ∷ 0 ∷ 255 ∷ 255 ∷ 0 ∷ 0 ∷ 16 ∷ 3 ∷ 0 ∷ 0 ∷ 2 ∷ 0 ∷ 0 ∷ 0 ∷ 0 ∷ 1 ∷ [] }
{}
