//! The vectors of RFC 4231 (HMAC-SHA-256), RFC 7914 (PBKDF2 with it) and RFC 7677, section 3 (a login). What
//! else is expected was made by Python's `hashlib` and `hmac`.
use base_core::Name;
use base64::engine::general_purpose::STANDARD;
use login_core::{
    Beginning, DIGEST_BYTES, Users, UsersFault, WrongLine, hmac_sha_256, make_verifier, read_users,
    verifier_text,
};
use std::alloc::Global;

/// Of the password `pencil`, in PostgreSQL's form.
const VERIFIER: &[u8] =
    b"SCRAM-SHA-256$4096:W22ZaJ0SNY7soEsUEjb6gQ==$WG5d8oPm3OtcPnkdi4Uo7BkeZkBFzpcXkuLmtbsT4qY=:wfPLwcE6nTWhTAmQ7tl2KeoiWGPlZqQxSrmfPwDl2dU=";

/// The user of RFC 7677, and one whose password is `hunter2`.
const TWO_USERS: &[u8] =
    b"user:SCRAM-SHA-256$4096:W22ZaJ0SNY7soEsUEjb6gQ==$WG5d8oPm3OtcPnkdi4Uo7BkeZkBFzpcXkuLmtbsT4qY=:wfPLwcE6nTWhTAmQ7tl2KeoiWGPlZqQxSrmfPwDl2dU=
Bob:SCRAM-SHA-256$10000:AAECAwQFBgcICQoLDA0ODw==$zz50xmVnMutL9mfWFLjsdGpQNERCVQ7xSk6Fr1oQpgE=:5c3u6m3ApPo2l9NjyWDkgBTTjnhd1BuIuZf6Djpf8KA=
";

/// The first of them again, in capitals.
const FIRST_AGAIN: &[u8] =
    b"USER:SCRAM-SHA-256$4096:W22ZaJ0SNY7soEsUEjb6gQ==$WG5d8oPm3OtcPnkdi4Uo7BkeZkBFzpcXkuLmtbsT4qY=:wfPLwcE6nTWhTAmQ7tl2KeoiWGPlZqQxSrmfPwDl2dU=";

/// The bytes 0, 1 .. 31.
const SECRET: [u8; DIGEST_BYTES] = [
    0, 1, 2, 3, 4, 5, 6, 7, 8, 9, 10, 11, 12, 13, 14, 15, 16, 17, 18, 19, 20, 21, 22, 23, 24, 25,
    26, 27, 28, 29, 30, 31,
];

/// The server's part of the nonce.
const OWN: &[u8] = b"%hvYDpWUa2RaTCAfuxFIlj)hNlF$k0";

const FIRST: &[u8] = b"LOGIN User n,,n=user,r=rOprNGfwEbeRWgbNEkqO";

const SERVER_FIRST: &[u8] =
    b"r=rOprNGfwEbeRWgbNEkqO%hvYDpWUa2RaTCAfuxFIlj)hNlF$k0,s=W22ZaJ0SNY7soEsUEjb6gQ==,i=4096";

const LAST: &[u8] =
    b"c=biws,r=rOprNGfwEbeRWgbNEkqO%hvYDpWUa2RaTCAfuxFIlj)hNlF$k0,p=dHzbZapWIk4jUhN+Ute9ytag9zjfMHgsqmmiz7AndVQ=";

/// By the same key, where the header was `y,,`.
const OF_THE_OTHER_HEADER: &[u8] =
    b"c=eSws,r=rOprNGfwEbeRWgbNEkqO%hvYDpWUa2RaTCAfuxFIlj)hNlF$k0,p=FoqiHTtQEDE8lz1CdaEe3tK4mS+iMDTl77SPyDS53DY=";

const SIGNED: &[u8] = b"v=6rriTRBi23WpRR/wtup+mMhUZUn/dB5nLTJRsjl95G4=";

#[test]
fn keyed_digests(rt: HostRuntime) {
    // RFC 4231, sections 4.3 and 4.7: the second key is longer than a block.
    let short = hmac_sha_256(b"Jefe", b"what do ya want for nothing?");
    assert!(rt;
        short
            == [
                0x5b, 0xdc, 0xc1, 0x46, 0xbf, 0x60, 0x75, 0x4e, 0x6a, 0x04, 0x24, 0x26, 0x08, 0x95,
                0x75, 0xc7, 0x5a, 0x00, 0x3f, 0x08, 0x9d, 0x27, 0x39, 0x83, 0x9d, 0xec, 0x58, 0xb9,
                0x64, 0xec, 0x38, 0x43,
            ]
    );
    let long = hmac_sha_256(
        &[0xaa; 131],
        b"Test Using Larger Than Block-Size Key - Hash Key First",
    );
    assert!(rt;
        long == [
            0x60, 0xe4, 0x31, 0x59, 0x1e, 0xe0, 0xb6, 0x7f, 0x0d, 0x8a, 0x26, 0xaa, 0xcb, 0xf5,
            0xb7, 0x7f, 0x8e, 0x0b, 0xc6, 0x21, 0x37, 0x28, 0xc5, 0x14, 0x05, 0x46, 0x04, 0x0f,
            0x0e, 0xe3, 0x7f, 0x54,
        ]
    );
}

#[test]
fn one_iteration(rt: HostRuntime) {
    // RFC 7914, section 11: the first 32 bytes of the first vector, of one iteration (RFC 8018, section 5.2).
    let key = hmac_sha_256(b"passwd", b"salt\0\0\0\x01");
    assert!(rt;
        key == [
            0x55, 0xac, 0x04, 0x6e, 0x56, 0xe3, 0x08, 0x9f, 0xec, 0x16, 0x91, 0xc2, 0x25, 0x44,
            0xb6, 0x05, 0xf9, 0x41, 0x85, 0x21, 0x6d, 0xde, 0x04, 0x65, 0xe6, 0x8b, 0x9d, 0x57,
            0xc2, 0x0d, 0xac, 0xbc,
        ]
    );
}

fn is_verifier_of(alloc: Global, password: &[u8], text: &[u8]) -> bool {
    let Ok(salt) = STANDARD.decode(alloc, b"W22ZaJ0SNY7soEsUEjb6gQ==") else {
        return false;
    };
    let Ok(made) = make_verifier(alloc, password, salt.as_slice(), 4096) else {
        return false;
    };
    match verifier_text(alloc, &made) {
        Ok(written) => written.as_slice() == text,
        Err(_) => false,
    }
}

#[test]
fn verifier_of_the_example(rt: HostRuntime) {
    assert!(rt; is_verifier_of(rt.alloc(), b"pencil", VERIFIER));
    assert!(rt; !is_verifier_of(rt.alloc(), b"pencils", VERIFIER));
}

fn begun_by(alloc: Global, users: &Users, line: &[u8]) -> Option<Beginning> {
    match Beginning::read(alloc, users, &SECRET, OWN, line) {
        Ok(begun) => begun,
        Err(_) => None,
    }
}

/// Whether the line begins a login of this user that is answered so.
fn asks(alloc: Global, line: &[u8], user: &[u8], wanted: &[u8]) -> bool {
    let Ok(file) = read_users(alloc, TWO_USERS) else {
        return false;
    };
    match begun_by(alloc, &file.users, line) {
        Some(begun) => begun.user().as_bytes() == user && begun.server_first() == wanted,
        None => false,
    }
}

/// What is answered to the last message of the login that the line begins.
fn answered(alloc: Global, line: &[u8], message: &[u8]) -> Option<Vec<u8>> {
    let Ok(file) = read_users(alloc, TWO_USERS) else {
        return None;
    };
    let begun = begun_by(alloc, &file.users, line)?;
    match begun.answer(alloc, &file.users, message) {
        Ok(answer) => answer,
        Err(_) => None,
    }
}

fn is_answered_by(alloc: Global, line: &[u8], message: &[u8], wanted: &[u8]) -> bool {
    match answered(alloc, line, message) {
        Some(answer) => answer.as_slice() == wanted,
        None => false,
    }
}

#[test]
fn login_of_the_example(rt: HostRuntime) {
    assert!(rt; asks(rt.alloc(), FIRST, b"user", SERVER_FIRST));
    assert!(rt; is_answered_by(rt.alloc(), FIRST, LAST, SIGNED));
    for message in [
        // The first byte of the proof is another.
        b"c=biws,r=rOprNGfwEbeRWgbNEkqO%hvYDpWUa2RaTCAfuxFIlj)hNlF$k0,p=eHzbZapWIk4jUhN+Ute9ytag9zjfMHgsqmmiz7AndVQ=".as_slice(),
        // The last byte of the nonce is another.
        b"c=biws,r=rOprNGfwEbeRWgbNEkqO%hvYDpWUa2RaTCAfuxFIlj)hNlF$k1,p=dHzbZapWIk4jUhN+Ute9ytag9zjfMHgsqmmiz7AndVQ=",
        OF_THE_OTHER_HEADER,
        b"c=biws,r=rOprNGfwEbeRWgbNEkqO%hvYDpWUa2RaTCAfuxFIlj)hNlF$k0",
        b"",
    ] {
        assert!(rt; answered(rt.alloc(), FIRST, message).is_none());
    }
}

#[test]
fn login_with_the_other_header(rt: HostRuntime) {
    let line = b"LOGIN USER y,,n=user,r=rOprNGfwEbeRWgbNEkqO";
    let signed = b"v=dI4KpiQJwBr1+V+K6U1dA6l6I4I9DUNXWND4pcpRU3U=";
    assert!(rt; is_answered_by(rt.alloc(), line, OF_THE_OTHER_HEADER, signed));
}

#[test]
fn login_of_no_user(rt: HostRuntime) {
    let line = b"LOGIN ann n,,n=user,r=rOprNGfwEbeRWgbNEkqO";
    let asked =
        b"r=rOprNGfwEbeRWgbNEkqO%hvYDpWUa2RaTCAfuxFIlj)hNlF$k0,s=DR8SuBlsUrDbRKVCnIMjAg==,i=4096";
    for _ in 0..2 {
        assert!(rt; asks(rt.alloc(), line, b"ann", asked));
        assert!(rt; answered(rt.alloc(), line, LAST).is_none());
    }
}

fn begins(alloc: Global, line: &[u8]) -> bool {
    let Ok(file) = read_users(alloc, b"") else {
        return false;
    };
    begun_by(alloc, &file.users, line).is_some()
}

#[test]
fn lines_that_begin_no_login(rt: HostRuntime) {
    assert!(rt; begins(rt.alloc(), b"LOGIN ann n,,n=,r=x"));
    for line in [
        b"USER ann".as_slice(),
        b"LOGIN ann",
        b"login ann n,,n=,r=x",
        b"LOGIN 1ann n,,n=,r=x",
        b"LOGIN ann  n,,n=,r=x",
        // A channel that is bound, another identity, no nonce, extensions, and a blank in the nonce.
        b"LOGIN ann p=tls-server-end-point,,n=,r=x",
        b"LOGIN ann n,a=bob,n=,r=x",
        b"LOGIN ann n,,n=,r=",
        b"LOGIN ann n,,m=x,n=,r=y",
        b"LOGIN ann n,,n=,r=x,e=y",
        b"LOGIN ann n,,n=,r=a b",
    ] {
        assert!(rt; !begins(rt.alloc(), line));
    }
}

/// How many users a file has, and the iterations of `user`, `bob` and `ann` in it.
fn users_of(alloc: Global, text: &[u8]) -> Option<(usize, [Option<u32>; 3])> {
    let Ok(file) = read_users(alloc, text) else {
        return None;
    };
    let found = [
        iterations_of(&file.users, b"user"),
        iterations_of(&file.users, b"bob"),
        iterations_of(&file.users, b"ann"),
    ];
    Some((file.users.len(), found))
}

fn iterations_of(users: &Users, word: &[u8]) -> Option<u32> {
    let name = Name::read(word)?;
    Some(users.find(name)?.iterations)
}

#[test]
fn files_of_users(rt: HostRuntime) {
    let (_, unended) = TWO_USERS.split_last().expect(&rt, "a line feed");
    let both = Some((2, [Some(4096), Some(10_000), None]));
    assert!(rt; users_of(rt.alloc(), TWO_USERS) == both);
    assert!(rt; users_of(rt.alloc(), unended) == both);
    assert!(rt; users_of(rt.alloc(), b"") == Some((0, [None, None, None])));
}

fn wrong_third_line(alloc: Global, line: &[u8]) -> Option<WrongLine> {
    let Ok(text) = [TWO_USERS, line].concat(alloc) else {
        return None;
    };
    match read_users(alloc, text.as_slice()) {
        Err(UsersFault::Line { number: 3, why }) => Some(why),
        _ => None,
    }
}

#[test]
fn wrong_lines(rt: HostRuntime) {
    assert!(rt; wrong_third_line(rt.alloc(), FIRST_AGAIN) == Some(WrongLine::Twice));
    for line in [
        b"\n".as_slice(),
        b"# ann\n",
        b"ann:md5d0e6b6b6b6b6b6b6b6b6b6b6b6b6b6b6",
        // No name, no iterations, a zero before their count, and a StoredKey of 15 bytes.
        b":SCRAM-SHA-256$1:W22ZaJ0SNY7soEsUEjb6gQ==$WG5d8oPm3OtcPnkdi4Uo7BkeZkBFzpcXkuLmtbsT4qY=:wfPLwcE6nTWhTAmQ7tl2KeoiWGPlZqQxSrmfPwDl2dU=",
        b"ann:SCRAM-SHA-256$0:W22ZaJ0SNY7soEsUEjb6gQ==$WG5d8oPm3OtcPnkdi4Uo7BkeZkBFzpcXkuLmtbsT4qY=:wfPLwcE6nTWhTAmQ7tl2KeoiWGPlZqQxSrmfPwDl2dU=",
        b"ann:SCRAM-SHA-256$01:W22ZaJ0SNY7soEsUEjb6gQ==$WG5d8oPm3OtcPnkdi4Uo7BkeZkBFzpcXkuLmtbsT4qY=:wfPLwcE6nTWhTAmQ7tl2KeoiWGPlZqQxSrmfPwDl2dU=",
        b"ann:SCRAM-SHA-256$1:W22ZaJ0SNY7soEsUEjb6gQ==$WG5d8oPm3OtcPnkdi4Uo:wfPLwcE6nTWhTAmQ7tl2KeoiWGPlZqQxSrmfPwDl2dU=",
    ] {
        assert!(rt; wrong_third_line(rt.alloc(), line) == Some(WrongLine::NoUser));
    }
}
