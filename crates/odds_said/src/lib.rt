// What the odds after several nights have to say of any bytes: definitions and theorems only (document 02, 2026-08).
#![tactic(auto)]
