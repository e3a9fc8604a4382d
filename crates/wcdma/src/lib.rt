// The WCDMA turbo interleaver, profile 5: its definitions and laws are in specs/. No code.
#![tactic(auto)]
