// No code: the definitions and laws of a running hash and of its HMAC, for any hash of FIPS 180-4 with blocks of 64 bytes.
#![tactic(auto)]
