// How large the numbers of an answer can be. There is no code here: only what is known of the two readings.
