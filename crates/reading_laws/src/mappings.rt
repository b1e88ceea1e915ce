// No code: what a reading of a mapping means, and that the written mapping reads back.
