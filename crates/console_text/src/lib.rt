// Console text: what a script is as text for two makers, and what text is read as. All of it is in specs/, and proved there of the definitions;
// `console_writer` writes text, `console_reader` reads it.

#![tactic(auto)]
