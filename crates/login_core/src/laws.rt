//! What logins show.
ghost use Rattle.std.specs.Prelude.{ℕ, List};
ghost use Rattle.login_core.specs.Scram.{salted_password, client_key, stored_key, client_proof, Proves};
ghost use Rattle.base_core.specs.declared.name.Name.{Name};
ghost use Rattle.login_core.specs.Users.{Users};
ghost use Rattle.login_core.specs.Exchange.{Exchange, HasShown, Named};

/// Who is named behind some messages has shown by one of them that he is that user, by a key for which
/// the `StoredKey` in that user's verifier stands. The message before it began that very login: it names
/// the user, and the nonce that was proved with ends with the server's own.
pub fn named_has_shown()
    ensures { (users : Users) (secret own : List ℕ) (messages : List (List ℕ)) (user : Name)
        → Exchange users secret own messages (Named user)
        → HasShown users secret own messages user }
{}

/// Who knows the password can prove it: the proof that RFC 5802, section 3, has a client send is one by
/// a holder of the key for which the `StoredKey` stands.
pub fn password_proves()
    ensures { (password salt : List ℕ) (iterations : ℕ) (message : List ℕ)
        → Proves (stored_key (client_key (salted_password password salt iterations))) message
        (client_proof (client_key (salted_password password salt iterations))
        (stored_key (client_key (salted_password password salt iterations))) message) }
{}
