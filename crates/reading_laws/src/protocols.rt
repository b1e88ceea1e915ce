// No code: what a reading of a protocol means, and that tables tell their text.
