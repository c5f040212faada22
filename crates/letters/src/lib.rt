// The bytes of tapes and listings by their names, once for every definition. There is no code here: the code writes a byte as a character.
// Read specs/Letters.antt for the bytes, and specs/Text.antt for a text as a row of them.
#![tactic(auto)]
