//! What holds of the keys of any bytes, however they come.
ghost use Rattle.std.specs.Prelude.{◌≡◌, ◌↔◌, ◌≤◌, ℕ, List, [], ◌∷◌, ◌++◌, length};
ghost use Rattle.key_screen.specs.declared.keys.Key.{Key};
ghost use Rattle.key_screen.specs.DecodedKeys.{decoded_keys, decoded_singly, followed_by};
ghost use Rattle.key_screen.specs.KeyCuts.{IsCut, IsKeyBefore};

/// No key is lost or doubled where the bytes come in pieces: fed one by one, or in two runs,
/// they give the same keys.
pub fn keys_survive_any_pieces()
    ensures one_by_one { (bytes : List ℕ) → decoded_singly [] bytes ≡ decoded_keys bytes }
    ensures in_two { (first second : List ℕ) → decoded_keys (first ++ second)
        ≡ followed_by (decoded_keys first) (λ rest. decoded_keys (rest ++ second)) }
{}

/// The grammar allows one cut of any bytes, and no key has more than 19 of them.
pub fn keys_have_one_cut()
    ensures only { (bytes rest : List ℕ) (keys : List Key) →
        IsCut bytes keys rest ↔ (decoded_keys bytes ≡ record { keys = keys; rest = rest }) }
    ensures bounded { (piece after : List ℕ) (key : Key) → IsKeyBefore piece key after → length piece ≤ 19 }
{}
