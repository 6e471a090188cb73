//! The rules that open the values of a column, each with its key.

ghost use Rattle.std.specs.Prelude.{◌≡◌, ◌≢◌, max};
ghost use Rattle.des_columns.specs.Jasypt.{Reads as ReadsJasypt};
ghost use Rattle.des_columns.specs.Mysql.{key_of};
ghost use Rattle.des_columns.specs.MysqlColumns.{Reads as ReadsMysql, ReadsByNumber};
ghost use Rattle.des_columns.specs.PgcryptoColumns.{Reads as ReadsPgcrypto};

use super::columns::Opener;
use des_columns::jasypt;
use des_columns::key_file::KeyFile;
use des_columns::mysql::{self, key_of};
use des_columns::pbe::Algorithm;
use des_columns::pgcrypto::{self, Scheme};
use std::simd::prelude::*;

/// `DES_DECRYPT` of MySQL and MariaDB under a key string.
#[derive(Drop)]
pub struct KeyString {
    key: [u8; 24],
}

impl KeyString {
    pub fn new(string: &[u8]) -> KeyString
        ensures { result.key ≡ key_of string.now }
    {
        KeyString {
            key: key_of(string),
        }
    }
}

impl Opener for KeyString {
    ghost opens = { λ opener. ReadsMysql opener.key };

    fn open(
        &self,
        values: &[u8],
        lengths: &[usize],
        texts: &mut [u8],
        text_lengths: &mut [usize],
        statuses: &mut [i32],
    ) {
        mysql::decrypt_values::<u64x2>(&self.key, values, lengths, texts, text_lengths, statuses);
    }
}

/// `decrypt_iv` of pgcrypto, and with an empty vector `decrypt`.
#[derive(Clone, Copy)]
pub struct PgcryptoKey<'k> {
    pub scheme: Scheme,
    pub key: &'k [u8],
    pub vector: &'k [u8],
}

impl<'k> Opener for PgcryptoKey<'k> {
    ghost opens = { λ opener. ReadsPgcrypto opener.scheme opener.key.now opener.vector.now };

    fn open(
        &self,
        values: &[u8],
        lengths: &[usize],
        texts: &mut [u8],
        text_lengths: &mut [usize],
        statuses: &mut [i32],
    ) {
        pgcrypto::decrypt_values::<u64x2>(
            self.scheme,
            self.key,
            self.vector,
            values,
            lengths,
            texts,
            text_lengths,
            statuses,
        );
    }
}

/// `DES_DECRYPT` of MySQL and MariaDB under the keys of the server's file.
impl Opener for KeyFile {
    ghost opens = { λ file. ReadsByNumber file.keys };

    fn open(
        &self,
        values: &[u8],
        lengths: &[usize],
        texts: &mut [u8],
        text_lengths: &mut [usize],
        statuses: &mut [i32],
    ) {
        mysql::decrypt_values_by_file::<u64x2>(
            self,
            values,
            lengths,
            texts,
            text_lengths,
            statuses,
        );
    }
}

/// Strings of Jasypt under a password.
#[derive(Clone, Copy)]
pub struct JasyptPassword<'k> {
    by: Algorithm,
    iterations: u32,
    password: &'k [u8],
    ghost some: { iterations ≢ 0 },
}

impl<'k> JasyptPassword<'k> {
    /// There is an iteration at least.
    pub fn new(by: Algorithm, iterations: u32, password: &'k [u8]) -> JasyptPassword<'k>
        ensures by { result.by ≡ by }
        ensures iterations { result.iterations ≡ max iterations 1 }
        ensures password { result.password ≡ password.entry }
    {
        JasyptPassword {
            by,
            iterations: iterations.max(1),
            password,
        }
    }
}

impl<'k> Opener for JasyptPassword<'k> {
    ghost opens = { λ opener. ReadsJasypt opener.by opener.iterations opener.password.now };

    fn open(
        &self,
        values: &[u8],
        lengths: &[usize],
        texts: &mut [u8],
        text_lengths: &mut [usize],
        statuses: &mut [i32],
    ) {
        let _ = jasypt::decrypt_values(
            self.by,
            self.iterations,
            self.password,
            values,
            lengths,
            texts,
            text_lengths,
            statuses,
        );
    }
}
